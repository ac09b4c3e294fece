// Calls between the pieces of a run that must be refused.
use crate::calls::{Call, Lent};
use crate::{Case, Size, marks};
use board::Refusal;
use job::{Job, Stage};
use job_kind::Kind;

// What is wrong with a call.
#[derive(Clone, Copy, PartialEq, Eq)]
pub(crate) enum Fault {
    // One too few or one too many.
    ShortBoard,
    LongBoard,
    ShortTable,
    ShortGivens,
    LongGivens,
    // A number of the job that breaks a rule, and a stage that its units don't fit.
    Number,
    Stage,
    // A mark, at this place, that is none.
    Mark(usize),
    // Three live marks from the first cell on.
    EdgeThree,
    // Marks altered, by this number.
    Altered(usize),
    // The job's numbers resumed as the other kinds: no working call.
    OtherKinds,
}

// The fault, or none, that comes before a working call of a run, by the calls so far and the units done.
pub(crate) fn random_fault(case: &Case, calls: usize, units: usize) -> Option<Fault> {
    let place = calls.wrapping_add(300000);
    let x = pseudo_random::below(16, case.seed, place);
    let some = match case.size.kind {
        Kind::Mirror => match x {
            0..=5 => of_number(
                case,
                pseudo_random::below(8, case.seed, place.wrapping_add(100000)),
                units,
            ),
            6..=7 => Fault::Altered(pseudo_random::below(case.size.cells, case.seed, place)),
            8 if with_edge(case).edge_three().is_some() => Fault::EdgeThree,
            9..=11 => Fault::OtherKinds,
            _ => return None,
        },
        Kind::Predecessor => match x {
            0..=5 => match pseudo_random::below(7, case.seed, place.wrapping_add(100000)) {
                5 => Fault::Number,
                6 => Fault::Stage,
                y => of_number(case, y, units),
            },
            6..=8 => Fault::Altered(case.seed.wrapping_add(calls)),
            9..=11 => Fault::OtherKinds,
            _ => return None,
        },
        _ => match x {
            5 if units % 2 == 1 && with_edge(case).edge_three().is_some() => Fault::EdgeThree,
            0..=7 => of_number(case, x, units),
            8..=11 => Fault::OtherKinds,
            _ => return None,
        },
    };
    Some(some)
}

fn of_number(case: &Case, x: usize, units: usize) -> Fault {
    match x {
        0 => Fault::ShortBoard,
        1 => Fault::LongBoard,
        2 => Fault::ShortTable,
        3 => Fault::ShortGivens,
        4 => Fault::LongGivens,
        5 => Fault::Mark(pseudo_random::below(case.size.cells, units, 400000)),
        6 => Fault::Number,
        _ => Fault::Stage,
    }
}

// The call with a fault; none where the fault needs no call.
pub(crate) fn call_with(case: &Case, fault: Fault, job: Job) -> Option<Call> {
    let mut call = Call {
        case: *case,
        job,
        lent: lent_with(case.size, fault),
        refusal: Refusal::Checkpoint,
    };
    match fault {
        Fault::ShortBoard | Fault::LongBoard => call.refusal = Refusal::BoardLength,
        Fault::ShortTable => call.refusal = Refusal::ShortTable,
        Fault::ShortGivens | Fault::LongGivens => call.refusal = Refusal::GivensLength,
        Fault::Number => call.job = with_number(job),
        Fault::Stage => call.job = with_other_stage(job),
        Fault::Mark(place) => {
            marks::put(&mut call.case.givens, place, 3);
            call.refusal = Refusal::Mark(place);
        }
        Fault::EdgeThree => {
            call.case = with_edge(case);
            call.refusal = Refusal::EdgeThree(call.case.edge_three()?);
        }
        Fault::Altered(n) => {
            let (altered, refusal) = case.altered(n);
            call.case = altered;
            call.refusal = refusal;
        }
        Fault::OtherKinds => return None,
    }
    Some(call)
}

fn lent_with(s: Size, fault: Fault) -> Lent {
    let mut lent = Lent::with_spare(s, 0);
    match fault {
        Fault::ShortBoard => lent.board = s.cells.wrapping_sub(1),
        Fault::LongBoard => lent.board = s.cells.wrapping_add(1),
        Fault::ShortTable => lent.table = s.room.wrapping_sub(1),
        Fault::ShortGivens => lent.givens = s.cells.wrapping_sub(1),
        Fault::LongGivens => lent.givens = s.cells.wrapping_add(1),
        _ => return Lent::exact(s),
    }
    lent
}

fn with_edge(case: &Case) -> Case {
    let mut next = *case;
    marks::put_edge(&mut next.givens, case.size);
    next
}

// A job whose rule has birth on 0, or whose width doesn't fit its kind; at odd units one that has too many.
fn with_number(job: Job) -> Job {
    let mut next = job;
    if job.units % 2 != 0 {
        next.units = usize::MAX;
    } else {
        match job.kind {
            Kind::Mirror => next.width = job.width.wrapping_add(1),
            Kind::Predecessor => next.width = job.width.wrapping_add(10),
            _ => next.rule.births = 1,
        }
    }
    next
}

// A stage that does not fit the units of a running job in this one.
fn with_other_stage(job: Job) -> Job {
    let (above, last, live) = (0, 0, 0);
    let stage = match job.stage {
        Stage::Filling { .. } => Stage::Choosing { above, last, live },
        Stage::Choosing { .. } => Stage::Filling { above, last, live },
        stage => stage,
    };
    Job { stage, ..job }
}

// Whether the numbers that pausing gives are refused when they are resumed as any of the other kinds.
pub(crate) fn are_others_refused(job: Job) -> bool {
    let Ok(numbers) = job.pause() else {
        return false;
    };
    [
        Kind::Ordinary,
        Kind::TwoLayers,
        Kind::Mirror,
        Kind::Predecessor,
    ]
    .iter()
    .all(|kind| *kind == job.kind || numbers.resume(*kind) == Err(Refusal::Checkpoint))
}
