// The filling of entries of the score table: a whole layer at once by column elimination, and entries of a part of a layer one after the other. Either
// way they are the entries that `score_table::fill` writes.
#![tactic(auto)]

mod layer;

ghost use Rattle.std.specs.Prelude.{◌≡◌, false, ◌≤◌};
ghost use Rattle.board.specs.Boards.{max_width};
ghost use Rattle.score_table.specs.Calls.{filled};
ghost use Rattle.layers.specs.Layers.{at_once};

use score_table::{Entries, Grid, Want};

// The narrowest grid whose layers are quicker by columns than entry by entry.
const NARROWEST: usize = 4;

// Fills entries. Where there are no such entries, the memory isn't of a grid of its width and height, or a number could be taken for none, nothing is written.
pub fn fill(grid: Grid<'_>, entries: Entries, table: &mut [u16])
    ensures { table.new ≡ filled grid.entry entries table.old }
{
    if !score_table::fill_fits(grid, entries, table.len()) {
        return;
    }
    if by_columns(grid.want, grid.width, entries) {
        layer::fill(grid, entries, table);
    } else {
        score_table::fill(grid, entries, table);
    }
}

// Whether so many entries are a whole layer that is filled at once: one above the last, apart from the layer that it reads, the greatest sums are
// wanted, a row's cells are its number's digits, and rows stay as they are.
#[tactic(auto, unfolding(crate::specs::Layers::at_once))]
fn by_columns(want: Want, w: usize, entries: Entries) -> bool
    requires { want.halves ≡ false → w ≤ max_width }
    ensures { result ≡ at_once want w entries.after entries.source entries.target entries.count }
{
    if want.least || want.halves || want.predecessor || w < NARROWEST || entries.after == 0 {
        return false;
    }
    let q = board::table_size(w, 1);
    entries.count == q && q <= entries.source.abs_diff(entries.target)
}
