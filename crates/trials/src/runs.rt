// Cases run by jobs of their kind: each in one run, and again in pieces.
ghost use Rattle.std.specs.Prelude.{◌≤◌};

use crate::calls::{After, Lent};
use crate::counts::add;
use crate::memory::Memory;
use crate::plain::Best;
use crate::{Case, calls, counts, pieces};

// What was tried.
#[derive(Clone, Copy, Default)]
pub struct Runs {
    pub jobs: usize,
    pub wrong: usize,
    // In pieces: working calls that passed, calls refused, those of them over an edge three and over altered marks, resumptions as the other
    // kinds, differences.
    pub calls: usize,
    pub refused: usize,
    pub edges: usize,
    pub altered: usize,
    pub others: usize,
    pub unlike: usize,
}

// Runs a case and holds it to what enumeration finds: over leftovers, and in pieces over others. No count goes down. The answer of the first run
// and the memory that it left, or none where opening is refused.
pub fn try_case(case: &Case, best: Option<Best>, runs: &mut Runs) -> Option<After>
    ensures { (runs.old.jobs ≤ runs.new.jobs) × (runs.old.wrong ≤ runs.new.wrong) × (runs.old.unlike ≤ runs.new.unlike) }
{
    counts::count(&mut runs.jobs);
    let Ok(job) = case.open() else {
        case.differs("the opening", &mut runs.wrong);
        return None;
    };
    let r = calls::work(
        case,
        job,
        Lent::exact(case.size),
        Memory::spoiled(case),
        u32::MAX,
    );
    if let Some(what) = difference(case, best, &r) {
        case.differs(what, &mut runs.wrong);
    }
    let again = Case {
        seed: case.seed.wrapping_add(5000000),
        ..*case
    };
    let p = pieces::run(&again, best, job, &r.memory);
    add(&mut runs.calls, p.calls);
    add(&mut runs.refused, p.refused);
    add(&mut runs.edges, p.edges);
    add(&mut runs.altered, p.altered);
    add(&mut runs.others, p.others);
    add(&mut runs.unlike, p.wrong);
    Some(r)
}

// What differs where a run answered anything else than enumeration found, left another board, or wrote anything but what it needs.
fn difference(case: &Case, best: Option<Best>, r: &After) -> Option<&'static str> {
    let s = case.size;
    if r.status != Ok(calls::end_of(best)) || r.job.units != calls::length(s, best) {
        return Some("the answer, or the units");
    }
    if let Some(b) = best {
        if !r.memory.is_board(s.cells, b.board) {
            return Some("the board");
        }
    }
    if !r.memory.is_kept(case, calls::written(s, best)) {
        return Some("memory past the table or the board, or a board for none");
    }
    None
}
