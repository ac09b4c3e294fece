// A working call: its checks, and then its units.
ghost use Rattle.std.specs.Prelude.{◌≡◌, ◌-◌, ◌^◌, ◌≤◌, ◌<◌, min};
ghost use Rattle.board.specs.Answers.{check_says};
ghost use Rattle.board.specs.Boards.{max_width};
ghost use Rattle.service.specs.Service.{work_check, works_on, stage_says};
ghost use Rattle.solver.specs.Working.{status_says};
ghost use Rattle.third_demand.specs.Units.{grid};
ghost use Rattle.solver.specs.Calls.{result_of};
ghost use Rattle.third_demand.specs.Lent.{Lent, lent_state};

use crate::{Status, Worked, choosing, wants};
use board::Refusal;
use job::{Job, Stage, Task};
use score_table::Entries;

// The checks of a working call: 7 as pausing, then 3, 4, 14, 15, 5, 6; with a target 3, 4, 5, 6.
#[tactic(auto, unfolding(service::specs::Service::work_check, third_demand::specs::Units::lent_check, job::specs::Jobs::pause_rule))]
pub fn check_work(job: Job, givens: &[u8], table: &[u16], board: &[u8]) -> Result<(), Refusal>
    ensures { check_says result ≡ work_check grid job givens.now table.now board.now }
{
    job.pause()?;
    let kind = job.kind;
    let w = job.width;
    let h = job.height;
    job_kind::check_read(kind, job.rule, w, h, givens)?;
    if !board::has_length(board, w, h) {
        return Err(Refusal::BoardLength);
    }
    board::check_table(kind.row_digits(w), kind.layers(h), table)
}

// The answer for a job in a stage. No `From`: `stage_says` is its contract by name.
fn status_of(stage: Stage) -> Status
    ensures { status_says (Ok result) ≡ stage_says stage }
{
    match stage {
        Stage::Filling { .. } => Status::Unfinished,
        Stage::Choosing { .. } => Status::Unfinished,
        Stage::Finished { score, .. } => Status::Finished(score),
        Stage::Infeasible => Status::Infeasible,
    }
}

// The entries to fill at once, from one of a layer on, where a row's number has so many binary digits: what the layer has left or the allowance,
// whichever is less.
#[tactic(auto, using(board::proofs::Powers::table_within, board::proofs::Powers::table_one))]
fn entries_now(digits: usize, entry: usize, left: usize) -> usize
    requires { (digits ≤ max_width) × (entry < 4 ^ digits) }
    ensures { result ≡ min (4 ^ digits - entry) left }
{
    left.min(board::table_size(digits, 1) - entry)
}

// The units of a working call that passed its checks: entries of a layer all at once, rows one by one.
pub fn work_on(
    start: Job,
    givens: &[u8],
    table: &mut [u16],
    board: &mut [u8],
    allowance: u32,
) -> Worked
    requires { Lent start givens.now table.old board.old }
    ensures { result_of result table.new board.new ≡ works_on grid givens.now allowance (lent_state start table.old board.old) }
{
    let rule = start.rule;
    let next = rule::table::of(rule);
    let mut job = start;
    let mut left = allowance as usize;
    while left != 0 {
        match job.task() {
            Some(
                Task::Fill {
                    after,
                    source,
                    target,
                    entry,
                },
            ) => {
                let kind = job.kind;
                let count = entries_now(kind.row_digits(job.width), entry, left);
                let entries = Entries {
                    after,
                    source,
                    target,
                    from: entry,
                    count,
                };
                layers::fill(wants::grid_of(&next, job, givens), entries, table);
                job = job.after_entries(count);
                left -= count;
            }
            Some(Task::Choose { row, source }) => {
                let Some(next_job) = choosing::choose(&next, job, row, source, givens, table, board)
                else {
                    return Worked {
                        job, // before the row
                        status: Err(Refusal::SpoiledTable),
                    };
                };
                job = next_job;
                left -= 1;
            }
            None => break,
        }
    }
    Worked {
        job,
        status: Ok(status_of(job.stage)),
    }
}
