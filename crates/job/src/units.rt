// The job after a unit.
ghost use Rattle.std.specs.Prelude.{◌≡◌, cond, ltb, suc, ◌+◌, ◌^◌, ◌≤◌, ◌<◌, Some};
ghost use Rattle.board.specs.Boards.{max_height, Width};
ghost use Rattle.elimination.specs.Task.{is_fill};
ghost use Rattle.elimination.specs.Shape.{after_entries, after_none};
ghost use Rattle.job_kind.specs.Kinds.{halves_of, board_length, shape_of};
ghost use Rattle.job.specs.Jobs.{runs_within, numbers_in, numbers_of, job_with, after_choice};

use crate::shape::Shape;
use crate::{Checkpoint, Job, numbers};
use board::ChosenRow;

// Whether the job runs, and its width and height are within their limits.
pub fn is_running(job: Job) -> bool
    ensures { result ≡ runs_within job }
{
    board::width_fits(job.kind.halves(), job.width)
        && job.height <= board::MAX_HEIGHT
        && numbers::kept_in(job.stage).mark == 0
}

// After so many entries, where the next unit fills another one or not.
#[tactic(auto, unfolding(crate::specs::Jobs::stage_of))]
pub fn after_entries(job: Job, count: usize, more: bool) -> Job
    requires no_overflow { job.units + count < 2 ^ 64 }
    requires more_is_fill { more ≡ is_fill ((shape_of job.kind job.width job.height).plan (job.units + count)) }
    ensures { result ≡ job_with job (after_entries count (numbers_in (numbers_of job))) }
{
    let c = numbers::kept_in(job.stage);
    Job {
        units: job.units + count,
        stage: numbers::running(more, c.above, c.last, c.live),
        ..job
    }
}

// A job of a width and a height within their limits whose next unit chooses a row, and the rows above that row.
#[derive(Clone, Copy, Debug, PartialEq, Eq)]
pub struct Due {
    pub job: Job,
    pub rows: usize,
    ghost narrow: { Width (halves_of job.kind) job.width },
    ghost low: { job.height ≤ max_height },
    ghost left: { job.units < board_length job.kind job.width job.height },
    ghost early: { rows ≤ job.units },
}

impl Due {
    // The job after the choice.
    pub fn after(self, chosen: Option<ChosenRow>) -> Job
        ensures { result ≡ after_choice (shape_of self.job.kind self.job.width self.job.height) self.rows self.job chosen }
    {
        match chosen {
            Some(chosen) => self.after_row(chosen),
            None => {
                if self.rows != 0 {
                    return self.job;
                }
                self.after_none()
            }
        }
    }

    // After a row.
    #[tactic(auto, using(crate::proofs::Next::units_few))]
    fn after_row(self, chosen: ChosenRow) -> Job
        ensures { result ≡ after_choice (shape_of self.job.kind self.job.width self.job.height) self.rows self.job (Some chosen) }
    {
        let job = self.job;
        let shape = Shape {
            kind: job.kind,
            width: job.width,
            height: job.height,
        };
        let t = numbers::numbers_of(job);
        if !shape.is_row(chosen.row) {
            return job;
        }
        if job.width < chosen.worth {
            return job;
        }
        if job.width * job.height < t.live {
            return job;
        }
        numbers::job_of(
            shape,
            Checkpoint {
                units: job.units + 1, // one row
                above: t.last,
                last: chosen.row,
                live: chosen.worth + t.live,
                mark: mark_after(job.height, self.rows),
                ..t
            },
        )
    }

    // Where no row can be chosen as row 1.
    fn after_none(self) -> Job
        ensures { result ≡ job_with self.job (after_none (numbers_in (numbers_of self.job))) }
    {
        let job = self.job;
        let shape = Shape {
            kind: job.kind,
            width: job.width,
            height: job.height,
        };
        let t = numbers::numbers_of(job);
        numbers::job_of(
            shape,
            Checkpoint {
                units: job.units + 1, // spent, with nothing written
                mark: 2,
                ..t
            },
        )
    }
}

// The end mark after the row of h that has r rows above it.
fn mark_after(h: usize, r: usize) -> usize
    requires { r < 2 ^ 32 }
    ensures { result ≡ cond (ltb (suc r) h) 0 1 }
{
    if r + 1 < h { 0 } else { 1 }
}
