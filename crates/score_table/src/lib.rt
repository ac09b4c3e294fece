// The score table of row elimination over a grid's rows: the filling of entries, and the choice of a row by what the table holds, by the numbers
// of a task. Both take every input; the table of the 512 patterns says how cells change, and a want says which row is the best.
#![tactic(auto)]

mod best;
mod filling;
mod rows;

ghost use Rattle.std.specs.Prelude.{◌≡◌, ◌≤◌};
ghost use Rattle.board.specs.Boards.{max_width};
ghost use Rattle.score_table.specs.ScoreTable.{want_of};
ghost use Rattle.score_table.specs.Calls.{grid_fits, call_fits, layer_fits, entries_fit, filled, gain_of, row_of_grid};

use board::ChosenRow;
use rows::Marks;

// The number that stands for none: a table lent is of 16-bit numbers, as document 01 has it, and so no option.
pub const NONE: u16 = 65535;

// Which of the rows that may stand somewhere is the best, by the sums of their worths and the numbers that the table has for them.
#[derive(Clone, Copy, Debug, PartialEq, Eq)]
pub struct Want {
    // The least sum is wanted, and not the greatest.
    pub least: bool,
    // Among equals the greatest row, and not the smallest.
    pub greater_first: bool,
    // The greatest number read that doesn't count as none.
    pub limit: usize,
    // A row's number is its left half, and the row goes on with its reflection.
    pub halves: bool,
    // A target is lent in the givens' place: the rows step to its rows, and have no givens. Without one they stay as they are.
    pub predecessor: bool,
}

// A grid whose entries are filled and whose rows are chosen: how cells change, by the 512 patterns, what is wanted, its size, and its givens.
#[derive(Clone, Copy)]
pub struct Grid<'a> {
    pub next: &'a [u8; 512],
    pub want: Want,
    pub width: usize,
    pub height: usize,
    pub givens: &'a [u8],
}

// Entries to fill, `count` of them from entry `from` on, of the layer that starts at `target` and has `after` rows after it, by the layer that starts at
// `source`.
#[derive(Clone, Copy, Debug, PartialEq, Eq)]
pub struct Entries {
    pub after: usize,
    pub source: usize,
    pub target: usize,
    pub from: usize,
    pub count: usize,
}

// What is wanted: the most free live cells, among equals the greatest row; or with a target the fewest live cells, among equals the smallest row. A number
// read counts up to 600, or up to 1,200 where rows are held as their left halves.
pub fn want_of(halves: bool, target: bool) -> Want
    ensures { result ≡ want_of halves target }
{
    let greater_first = !target;
    let limit = if halves { 1200 } else { 600 };
    Want {
        least: target,
        greater_first,
        limit,
        halves,
        predecessor: target,
    }
}

// Fills entries. Where there are no such entries, the memory isn't of a grid of its width and height, or a number could be taken for none, nothing is written.
pub fn fill(grid: Grid<'_>, entries: Entries, table: &mut [u16])
    ensures { table.new ≡ filled grid.entry entries table.old }
{
    if fill_fits(grid, entries, table.len()) {
        filling::write_entries(grid, entries, table);
    }
}

// Chooses the row below `above` and `last` that has r rows above it, by its layer, which starts at `source`. Where there is no such row, the
// memory isn't of a grid of its width and height, or a number could be taken for none, it gives none.
pub fn choose_row(
    grid: Grid<'_>,
    r: usize,
    source: usize,
    above: usize,
    last: usize,
    table: &[u16],
) -> Option<ChosenRow>
    ensures { result ≡ row_of_grid grid.entry r source above last table.now }
{
    if !fits(grid) || grid.height <= r {
        return None;
    }
    let w = grid.width;
    let want = grid.want;
    let bits = board::row_digits(want.halves, w);
    if !layer_fits(bits, table.len(), source) {
        return None;
    }
    let n = rows::row_codes(bits);
    if n <= above || n <= last {
        return None;
    }
    let at = r * w;
    let first = source + last * n;
    let b = rows::row_for(want, w, last);
    let t = rows::target_row(want.predecessor, w, grid.givens, r, b);
    let best = best::best_row(grid, above, last, t, at, table, first)?;
    let row = rows::row_for(want, w, best.row);
    let marks = Marks {
        target: want.predecessor,
        w,
        lent: grid.givens,
        at,
    };
    Some(ChosenRow {
        row: best.row,
        worth: marks.worth(row),
    })
}

// One more than what a row earns as the one with r rows above it, by the last w digits of its number; 0 where it doesn't keep the givens there, or the
// memory isn't of a grid of w by h cells with so many rows above one. A number and no option, since it is the one that a lane starts from.
pub fn row_gain(w: usize, h: usize, r: usize, row: usize, givens: &[u8]) -> usize
    ensures { result ≡ gain_of w h r row givens.now }
{
    if !grid_fits(false, w, h, givens) || h <= r {
        return 0;
    }
    let marks = Marks {
        target: false,
        w,
        lent: givens,
        at: r * w,
    };
    if !marks.kept(row) {
        return 0;
    }
    marks.worth(row) + 1
}

// Whether the givens are those of a grid of a width that fits how rows are held, and of at most 60 rows.
#[tactic(auto, unfolding(crate::specs::Calls::grid_fits))]
fn grid_fits(halves: bool, w: usize, h: usize, givens: &[u8]) -> bool
    ensures { result ≡ grid_fits halves w h givens.now }
{
    board::width_fits(halves, w) && h <= board::MAX_HEIGHT && givens.len() == w * h
}

// Whether they are, and no number of an entry could be taken for none.
fn fits(grid: Grid<'_>) -> bool
    ensures { result ≡ call_fits grid.entry.want grid.entry.width grid.entry.height grid.entry.givens.now }
{
    let want = grid.want;
    grid_fits(want.halves, grid.width, grid.height, grid.givens)
        && want.limit < NONE as usize - grid.width
}

// Whether the layer that starts at a place lies within a table of n entries, where a row's number has so many binary digits.
fn layer_fits(bits: usize, n: usize, at: usize) -> bool
    requires { bits ≤ max_width }
    ensures { result ≡ layer_fits bits n at }
{
    let q = filling::layer_size(bits);
    q <= n && at <= n - q
}

// Whether there are such entries to fill in a table of n entries.
pub fn fill_fits(grid: Grid<'_>, entries: Entries, n: usize) -> bool
    ensures { result ≡ entries_fit grid.entry entries n }
{
    if !fits(grid) || grid.height <= entries.after {
        return false;
    }
    let bits = board::row_digits(grid.want.halves, grid.width);
    let q = filling::layer_size(bits);
    if q < entries.count || q - entries.count < entries.from {
        return false;
    }
    layer_fits(bits, n, entries.target)
        && (entries.after == 0 || layer_fits(bits, n, entries.source))
}
