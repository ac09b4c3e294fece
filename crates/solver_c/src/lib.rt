// The solver for C: a job in working calls.
#![tactic(auto)]

ghost use Rattle.std.specs.Prelude.{◌≡◌};
ghost use Rattle.solver.specs.Working.{status_says};
ghost use Rattle.solver_c.specs.InCalls.{code_of, WorksInCalls, MakesCalls};

use board::Refusal;
use job::Job;
use job_kind::Kind;
use solver::Status;

// Answers that are no score, which is at most 1,200: for C an answer is one number.
const UNFINISHED: usize = 2001;

const INFEASIBLE: usize = 2002;

const REFUSED: usize = 2003;

// Opens a job under Conway's rule, of the kind with a number, 0 ordinary, 1 two layers, 2 mirror boards, 3 predecessors of a target, which is then lent for
// the givens, and makes so many working calls of an allowance. The score where the last one answers it; 2001 unfinished, also where no call is made; 2002
// no board; 2003 the number of no kind, or refused, by opening or by the last call.
#[unsafe(no_mangle)]
pub extern "C" fn work_in_calls(
    kind: usize,
    w: usize,
    h: usize,
    givens: &[u8],
    table: &mut [u16],
    board: &mut [u8],
    allowance: u32,
    calls: usize,
) -> usize
    ensures { WorksInCalls kind w h givens.now table.old board.old allowance calls result table.new board.new }
{
    let Ok(kind) = Kind::try_from(kind) else {
        return REFUSED;
    };
    match job::open(kind, rule::conway(), w, h, givens) {
        Ok(job) => run(job, givens, table, board, allowance, calls),
        Err(_) => REFUSED,
    }
}

// Makes the calls on an opened job.
fn run(
    start: Job,
    givens: &[u8],
    table: &mut [u16],
    board: &mut [u8],
    allowance: u32,
    calls: usize,
) -> usize
    ensures { MakesCalls start givens.now table.old board.old allowance calls result table.new board.new }
{
    let mut job = start;
    let mut status = Ok(Status::Unfinished);
    for k in 0..calls {
        let worked = solver::work(job, givens, table, board, allowance);
        job = worked.job;
        status = worked.status;
    }
    code_of(status)
}

// The answer for what a call answers.
fn code_of(status: Result<Status, Refusal>) -> usize
    ensures { result ≡ code_of (status_says status) }
{
    match status {
        Ok(Status::Unfinished) => UNFINISHED,
        Ok(Status::Finished(score)) => score,
        Ok(Status::Infeasible) => INFEASIBLE,
        Err(_) => REFUSED,
    }
}
