// A solver for still-life grids: under a rule the best still board that keeps the givens, or the best mirror board, by row elimination; and of a target
// the board with the fewest live cells that steps to it. A job works in units, may stop after any of them, be paused into ten numbers and resumed from
// them, over any leftovers in the lent memory.
#![tactic(auto)]

use board::Refusal;
use job::Job;

mod choosing;
mod wants;
mod working;

ghost use Rattle.solver.specs.Calls.{Works};

// How far a working call brings its job.
#[derive(Clone, Copy, Debug, PartialEq, Eq)]
pub enum Status {
    Unfinished,
    // The score: the live cells of the board that were free, with a target all its live cells.
    Finished(usize),
    Infeasible,
}

// A working call's answer, always with the job.
#[derive(Clone, Copy)]
pub struct Worked {
    pub job: Job,
    pub status: Result<Status, Refusal>,
}

// Does units of a job of any kind until the allowance or the job is spent, over a board of w × h bytes and a table of h × 4^w entries or more, or of
// 2 × 4^w or more where the job is one of two layers; in a mirror job w ÷ 2 stands for w in the power.
// A job with a target is lent it in the givens' place. Refusals 7, 3, 4, 14, 15, 5, 6, with a target 7, 3, 4, 5, 6; then 9 as met.
pub fn work(job: Job, givens: &[u8], table: &mut [u16], board: &mut [u8], allowance: u32) -> Worked
    ensures { Works job givens.now table.old board.old allowance result table.new board.new }
{
    match working::check_work(job, givens, table, board) {
        Err(r) => Worked {
            job,
            status: Err(r),
        },
        Ok(()) => working::work_on(job, givens, table, board, allowance),
    }
}
