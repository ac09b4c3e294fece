// A run in pieces: random allowances, each call after a pause and a resumption, and calls in between that must be refused.
use crate::calls::Lent;
use crate::counts::count;
use crate::faults::Fault;
use crate::memory::Memory;
use crate::plain::Best;
use crate::{Case, allowances, calls, faults, jobs};
use job::Job;
use solver::Status;

// How a run went.
#[derive(Clone, Copy)]
pub(crate) struct Pieces {
    pub(crate) calls: usize,
    pub(crate) refused: usize,
    // Of those refused, the ones over an edge three, and over altered marks.
    pub(crate) edges: usize,
    pub(crate) altered: usize,
    // Resumptions as the other kinds.
    pub(crate) others: usize,
    // 1 where it differs from one run.
    pub(crate) wrong: usize,
}

// A run between two calls: the job, its memory, the sum of the allowances, and how it went so far.
#[derive(Clone, Copy)]
struct Turn {
    job: Job,
    memory: Memory,
    sum: usize,
    so_far: Pieces,
}

// A run in pieces over a case's leftovers, held to the memory that one run left.
pub(crate) fn run(case: &Case, best: Option<Best>, job: Job, one: &Memory) -> Pieces {
    let mut t = Turn {
        job,
        memory: Memory::spoiled(case),
        sum: 0,
        so_far: Pieces {
            calls: 0,
            refused: 0,
            edges: 0,
            altered: 0,
            others: 0,
            wrong: 0,
        },
    };
    if let Some(what) = first_difference(case, best, &mut t, one) {
        case.differs(what, &mut t.so_far.wrong);
    }
    t.so_far
}

// What differs first: in the turns, or in the memory that they leave.
fn first_difference(
    case: &Case,
    best: Option<Best>,
    t: &mut Turn,
    one: &Memory,
) -> Option<&'static str> {
    if let Some(what) = all_turns(case, best, t) {
        return Some(what);
    }
    if !stays_ended(case, best, t) {
        return Some("a call after the end");
    }
    let written = calls::written(case.size, best);
    if !t.memory.is_written_as(one, case.size, written) || !t.memory.is_kept(case, written) {
        return Some("the memory left in pieces");
    }
    None
}

// Whether a call on the ended job gives the same answer again, and alters nothing.
fn stays_ended(case: &Case, best: Option<Best>, t: &Turn) -> bool {
    let r = calls::work(case, t.job, Lent::exact(case.size), t.memory, 1000);
    r.status == Ok(calls::end_of(best)) && calls::is_unaltered(t.job, &t.memory, &r)
}

// Turns until the job ends or differs.
fn all_turns(case: &Case, best: Option<Best>, t: &mut Turn) -> Option<&'static str> {
    let units = calls::length(case.size, best);
    for _ in 0..100000 {
        if let Some(what) = next_turn(case, best, t) {
            return Some(what);
        }
        if units <= t.sum {
            return None;
        }
    }
    Some("a run that does not end")
}

// One turn: a pause and a resumption, perhaps a call that must be refused, and a working call. Whether it differs.
fn next_turn(case: &Case, best: Option<Best>, t: &mut Turn) -> Option<&'static str> {
    if jobs::resumed(t.job) != Ok(t.job) {
        return Some("a job resumed");
    }
    if let Some(fault) = faults::random_fault(case, t.so_far.calls, t.job.units) {
        if !is_refused(case, fault, t) {
            return Some("a call to be refused, or a resumption as another kind");
        }
        count_refused(fault, &mut t.so_far);
    }
    work_on(case, best, t)
}

fn is_refused(case: &Case, fault: Fault, t: &Turn) -> bool {
    match faults::call_with(case, fault, t.job) {
        Some(call) => calls::is_refused(&call, &t.memory),
        None => faults::are_others_refused(t.job),
    }
}

fn count_refused(fault: Fault, p: &mut Pieces) {
    if fault == Fault::OtherKinds {
        count(&mut p.others);
        return;
    }
    count(&mut p.refused);
    match fault {
        Fault::EdgeThree => count(&mut p.edges),
        Fault::Altered(_) => count(&mut p.altered),
        _ => {}
    }
}

// The working call of a turn. At every third one the table has no entry to spare. The units are the allowances' sum, but no more than the job's
// length.
fn work_on(case: &Case, best: Option<Best>, t: &mut Turn) -> Option<&'static str> {
    let allowance = allowances::random(case.size.fills, case.seed, t.so_far.calls);
    let lent = Lent::with_spare(case.size, t.so_far.calls % 3);
    let r = calls::work(case, t.job, lent, t.memory, allowance);
    t.job = r.job;
    t.memory = r.memory;
    t.sum = t.sum.wrapping_add(allowance as usize);
    count(&mut t.so_far.calls);
    let length = calls::length(case.size, best);
    let status = if length <= t.sum {
        calls::end_of(best)
    } else {
        Status::Unfinished
    };
    if r.status == Ok(status) && r.job.units == length.min(t.sum) {
        return None;
    }
    Some("the answer or the units of a piece")
}
