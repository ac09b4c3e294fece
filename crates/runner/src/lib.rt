// Runs a job to its end in one call, for callers that don't pause.
#![tactic(auto)]

ghost use Rattle.runner.specs.Solving.{Solves, Runs, Ready};

use board::Refusal;
use job::Job;
use job_kind::Kind;
use rule::Rule;
use solver::Status;

// The units that a working call is allowed.
const ALLOWANCE: u32 = 1000;

// Solves a grid of givens under a rule, by a job of a kind: leaves the best still board that keeps them, or the best mirror board, in `board`, over a
// table with room for the kind's layers; or of a target, lent for the givens, the board with the fewest live cells that steps to it. Among equals it is
// the one whose rows are greatest, row 1 first, and of a target the one whose rows are smallest. Answers what that board counts: the best board's score,
// with a target the fewest live cells; or none, where no still board keeps the givens, of a mirror job no mirror board, with a target where no board steps
// to it. Refusals 1, 2, 13, 3, 4, 14, 15 as opening, with a
// target 1, 2, 13, 3, 4; then 5, 6 as working.
pub fn solve(
    kind: Kind,
    rule: Rule,
    w: usize,
    h: usize,
    givens: &[u8],
    table: &mut [u16],
    board: &mut [u8],
) -> Result<Option<usize>, Refusal>
    ensures { Solves kind rule w h givens.now table.old board.old result table.new board.new }
{
    let job = job::open(kind, rule, w, h, givens)?;
    run(job, givens, table, board)
}

// Works an opened job until it ends.
fn run(
    start: Job,
    givens: &[u8],
    table: &mut [u16],
    board: &mut [u8],
) -> Result<Option<usize>, Refusal>
    requires { Ready start givens.now }
    ensures { Runs start givens.now table.old board.old result table.new board.new }
{
    let mut job = start;
    loop {
        let worked = solver::work(job, givens, table, board, ALLOWANCE);
        job = worked.job;
        match worked.status? {
            Status::Unfinished => {}
            Status::Finished(score) => return Ok(Some(score)),
            Status::Infeasible => return Ok(None),
        }
    }
}
