// Jobs as they are opened, and after a pause and a resumption.
ghost use Rattle.std.specs.Prelude.{◌≡◌, [], Ok};
ghost use Rattle.job.specs.declared.Job.{Job};

use crate::Size;
use board::Refusal;
use job::{Job, Stage};
use rule::Rule;
use solver::Status;

// The job after working calls with these allowances, with a pause and a resumption before each; the first refusal, and 7 where a call answers what its
// job's stage isn't. With no allowance it is the job.
pub fn in_pieces(
    job: Job,
    givens: &[u8],
    table: &mut [u16],
    board: &mut [u8],
    allowances: &[u32],
) -> Result<Job, Refusal>
    ensures { allowances.now ≡ [] → result ≡ Ok job }
{
    let mut last = job;
    for allowance in allowances {
        let worked = solver::work(resumed(last)?, givens, table, board, *allowance);
        if worked.status? != status_of(worked.job.stage) {
            return Err(Refusal::Checkpoint);
        }
        last = worked.job;
    }
    Ok(last)
}

// What a working call has to answer with a job in a stage.
fn status_of(stage: Stage) -> Status {
    match stage {
        Stage::Filling { .. } | Stage::Choosing { .. } => Status::Unfinished,
        Stage::Finished { score, .. } => Status::Finished(score),
        Stage::Infeasible => Status::Infeasible,
    }
}

// The job resumed from the numbers that pausing gives.
pub(crate) fn resumed(job: Job) -> Result<Job, Refusal>
    ensures { (j : Job) → result ≡ Ok j → j ≡ job }
{
    job.pause()?.resume(job.kind)
}

// A job at unit 0.
pub(crate) fn fresh(rule: Rule, s: Size) -> Job {
    Job {
        kind: s.kind,
        rule,
        width: s.w,
        height: s.h,
        units: 0,
        stage: Stage::Filling {
            above: 0,
            last: 0,
            live: 0,
        },
    }
}
