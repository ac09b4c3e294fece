// Choosing: one row of the board a unit.
ghost use Rattle.rule.specs.Rule.{Holds, next_under};
ghost use Rattle.third_demand.specs.Lent.{Chooses};
ghost use Rattle.solver.specs.Inner.{Moves};

use crate::wants;
use job::Job;

// Chooses the row that has r rows above it, by its layer, which starts at `source`, and writes it into its part of the board: the next job, or none where
// no row can be chosen after row 1.
pub fn choose(
    next: &[u8; 512],
    job: Job,
    r: usize,
    source: usize,
    givens: &[u8],
    table: &[u16],
    board: &mut [u8],
) -> Option<Job>
    requires holds { Holds (next_under job.rule) next.now }
    requires chooses { Chooses job r source givens.now table.now board.old }
    ensures { Moves job givens.now table.now board.old result table.now board.new }
{
    let kind = job.kind;
    let t = job.numbers();
    let grid = wants::grid_of(next, job, givens);
    let chosen = score_table::choose_row(grid, r, source, t.above, t.last, table);
    match chosen {
        Some(c) => board_rows::write_row(kind.row_digits(job.width), job.width, r, c.row, board),
        None => {
            if r != 0 {
                return None;
            }
        }
    }
    Some(job.after(chosen))
}
