// Forged numbers: jobs resumed over leftovers against a plain second implementation.
ghost use Rattle.std.specs.Prelude.{◌≤◌};

use crate::calls::{After, Lent};
use crate::counts::count;
use crate::memory::Memory;
use crate::unit::Ran;
use crate::{Case, Rules, Size, allowances, calls, memory, unit};
use board::Refusal;
use job::{Checkpoint, Job};
use job_kind::Kind;
use rule::Rule;
use solver::Status;

// What was tried of forged jobs.
#[derive(Clone, Copy, Default)]
struct Tally {
    // The stages that the jobs are resumed in: filling before row 1, filling again after a row, choosing, ended.
    filling: usize,
    again: usize,
    choosing: usize,
    ended: usize,
    // Over an edge three.
    edges: usize,
    // Working calls, and how they ended.
    calls: usize,
    spoiled: usize,
    finished: usize,
    none: usize,
    // Entries written above 600 that are not none: of mirror boards those up to 1,200, which count in this kind alone; of predecessors those that
    // count as none when they are read.
    great: usize,
}

// A job of the library, and its numbers in the second implementation, between two calls; the memory is the same for both.
#[derive(Clone, Copy)]
struct Pair {
    job: Job,
    numbers: Checkpoint,
    memory: Memory,
}

// Forged jobs of a kind under some rules, so many, each with its leftovers: prints what was tried. The number that differ.
pub fn try_jobs(name: &str, kind: Kind, rules: Rules, jobs: usize) -> usize
    ensures { result ≤ jobs }
{
    let mut t = Tally::default();
    let mut wrong = 0;
    for k in 0..jobs {
        let seed = k.wrapping_add(3000000);
        let case = Case::random(rules.rule(seed), random_size(kind, seed), seed);
        if let Some(what) = first_difference(&case, &mut t) {
            case.differs(what, &mut wrong);
        }
    }
    report::line(name, jobs);
    print(kind, t);
    report::line("  differences from a plain unit: ", wrong);
    wrong
}

// The counts that a kind can have.
fn print(kind: Kind, t: Tally) {
    report::line("  resumed before row 1, filling: ", t.filling);
    if kind == Kind::Ordinary || kind == Kind::TwoLayers {
        report::line("  resumed after a row, filling again: ", t.again);
    }
    report::line("  resumed at a row to be chosen: ", t.choosing);
    if kind != Kind::Mirror {
        report::line("  resumed at the end: ", t.ended);
    }
    if kind != Kind::Predecessor {
        report::line("  over an edge three: ", t.edges);
    }
    report::line("  working calls: ", t.calls);
    match kind {
        Kind::Mirror => report::line("  entries written of 601 to 1,200: ", t.great),
        Kind::Predecessor => report::line("  entries written above 600: ", t.great),
        _ => {}
    }
    report::line("  refused for a spoiled table: ", t.spoiled);
    report::line("  finished: ", t.finished);
    report::line("  none: ", t.none);
}

// Resumes a job of random numbers, and tries it.
fn first_difference(case: &Case, t: &mut Tally) -> Option<&'static str> {
    let numbers = random_numbers(case);
    let Ok(job) = numbers.resume(case.size.kind) else {
        return Some("a job that resuming refuses");
    };
    count_stage(case.size, numbers, t);
    match case.edge_three() {
        Some(place) if case.size.kind != Kind::Predecessor => {
            count(&mut t.edges);
            return over_edge(case, job, Refusal::EdgeThree(place));
        }
        _ => {}
    }
    let mut p = Pair {
        job,
        numbers,
        memory: Memory::spoiled(case),
    };
    for k in 0..6usize {
        let allowance = allowances::random(case.size.fills, case.seed, k + 600000);
        if !try_call(case, allowance, &mut p, t) {
            return Some("a call on a forged job");
        }
    }
    None
}

// A call over an edge three is refused.
fn over_edge(case: &Case, job: Job, refusal: Refusal) -> Option<&'static str> {
    let call = calls::Call {
        case: *case,
        job,
        lent: Lent::exact(case.size),
        refusal,
    };
    if calls::is_refused(&call, &Memory::spoiled(case)) {
        return None;
    }
    Some("a forged job over an edge three")
}

// Counts the stage that a job is resumed in.
fn count_stage(s: Size, c: Checkpoint, t: &mut Tally) {
    if c.mark != 0 {
        count(&mut t.ended);
    } else if s.left(c.units) == 0 {
        count(&mut t.choosing);
    } else if s.chosen(c.units) == 0 {
        count(&mut t.filling);
    } else {
        count(&mut t.again);
    }
}

// A size whose table fits the memory; for two layers one whose job is not too long.
fn random_size(kind: Kind, seed: usize) -> Size {
    let mirror = kind == Kind::Mirror;
    let digits = pseudo_random::below(if mirror { 3 } else { 4 }, seed, 500000).wrapping_add(1);
    let few = pseudo_random::below(2, seed, 500001) == 0;
    let most = if few { 4 } else { most_rows(kind, digits) };
    let h = pseudo_random::below(most, seed, 500002).wrapping_add(1);
    Size::new(
        kind,
        if mirror {
            digits.wrapping_mul(2)
        } else {
            digits
        },
        h,
    )
}

fn most_rows(kind: Kind, digits: usize) -> usize {
    match (kind, digits) {
        (Kind::TwoLayers, 1) => 60,
        (Kind::TwoLayers, 2) => 20,
        (Kind::TwoLayers, 3) => 8,
        (Kind::Mirror, 1) => 60,
        (Kind::Mirror, 2) => 16,
        (Kind::Mirror, _) => 4,
        (_, 1..=2) => 60,
        (_, 3) => 16,
        _ => 4,
    }
}

// Numbers of a job: filling before row 1 anywhere or near its end, for two layers before any row too, choosing, or ended.
fn random_numbers(case: &Case) -> Checkpoint {
    let s = case.size;
    let k = pseudo_random::below(s.h, case.seed, 500005);
    let x = pseudo_random::below(16, case.seed, 500003);
    match s.kind {
        Kind::TwoLayers => match x {
            0 => filling(case, 0, s.entries),
            1 => filling(case, 0, 40),
            2..=5 => filling(case, k, s.entries),
            6..=9 => filling(case, k, 40),
            14 => finished(case),
            15 => infeasible(case),
            _ => choosing(case, k),
        },
        Kind::Predecessor => match x {
            0..=3 => filling(case, 0, s.entries),
            4..=7 => filling(case, 0, 40),
            8 => finished(case),
            9 => infeasible(case),
            _ => choosing(case, k),
        },
        _ => match pseudo_random::below(4, case.seed, 500003) {
            0 => filling(case, 0, s.entries),
            1 => filling(case, 0, 40),
            _ => choosing(case, k),
        },
    }
}

// With k rows chosen, at one of the last entries before the next.
fn filling(case: &Case, k: usize, last: usize) -> Checkpoint {
    let s = case.size;
    let entries = s.h.wrapping_sub(k).wrapping_mul(s.layer);
    let rest = pseudo_random::below(entries.min(last), case.seed, 500004).wrapping_add(1);
    with_rows(case, k, before_row(s, k).wrapping_sub(rest), 0)
}

fn choosing(case: &Case, k: usize) -> Checkpoint {
    with_rows(case, k, before_row(case.size, k), 0)
}

fn finished(case: &Case) -> Checkpoint {
    with_rows(case, case.size.h, case.size.length, 1)
}

fn infeasible(case: &Case) -> Checkpoint {
    with_rows(case, 0, case.size.none_length, 2)
}

// The units before the one that chooses the row after k rows.
fn before_row(s: Size, k: usize) -> usize {
    s.until_row(k.wrapping_add(1)).wrapping_sub(1)
}

// Numbers with random rows, k of them chosen.
fn with_rows(case: &Case, k: usize, units: usize, mark: usize) -> Checkpoint {
    let s = case.size;
    let most = s.w.wrapping_mul(k).wrapping_add(1);
    Checkpoint {
        width: s.w,
        height: s.h,
        units,
        above: random_row(if k < 2 { 1 } else { s.rows }, case.seed, 500006),
        last: random_row(if k < 1 { 1 } else { s.rows }, case.seed, 500008),
        live: pseudo_random::below(most, case.seed, 500010),
        mark,
        births: case.rule.births,
        survivals: case.rule.survivals,
        kind: number_of(s.kind),
    }
}

// A kind's number, apart from the library.
fn number_of(kind: Kind) -> usize {
    match kind {
        Kind::Ordinary => 0,
        Kind::TwoLayers => 1,
        Kind::Mirror => 2,
        Kind::Predecessor => 3,
    }
}

// Any of the first n rows, or the dead one, below which more rows can stand.
fn random_row(n: usize, seed: usize, place: usize) -> usize {
    if pseudo_random::below(2, seed, place) == 0 {
        return 0;
    }
    pseudo_random::below(n, seed, place.wrapping_add(1))
}

// A call of both: whether they come to the same job, status and memory.
fn try_call(case: &Case, allowance: u32, p: &mut Pair, t: &mut Tally) -> bool {
    let r = calls::work(case, p.job, Lent::exact(case.size), p.memory, allowance);
    let plain = unit::work(case, p.numbers, p.memory, allowance);
    count(&mut t.calls);
    t.great = t
        .great
        .wrapping_add(great_entries(case.size.kind, &p.memory, &plain.memory));
    match plain.numbers.mark {
        _ if plain.is_spoiled => count(&mut t.spoiled),
        1 => count(&mut t.finished),
        2 => count(&mut t.none),
        _ => {}
    }
    p.job = r.job;
    p.memory = r.memory;
    p.numbers = plain.numbers;
    is_same(case.size, &r, &plain)
}

// The entries above 600 that count or are not none, among those that differ.
fn great_entries(kind: Kind, before: &Memory, after: &Memory) -> usize {
    let most = if kind == Kind::Mirror {
        memory::most(kind)
    } else {
        65534
    };
    before
        .table
        .iter()
        .zip(after.table.iter())
        .filter(|(old, new)| **old != **new && 600 < **new && (**new as usize) <= most)
        .count()
}

// Whether a working call answers with the job, the status and the memory that the second implementation comes to.
fn is_same(s: Size, r: &After, plain: &Ran) -> bool {
    let c = plain.numbers;
    let status = match c.mark {
        _ if plain.is_spoiled => Err(Refusal::SpoiledTable),
        0 => Ok(Status::Unfinished),
        1 => Ok(Status::Finished(c.live)),
        _ => Ok(Status::Infeasible),
    };
    r.status == status && r.job == unit::job_of(s, c) && r.memory == plain.memory
}
