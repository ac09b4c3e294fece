// A whole layer by column elimination, eight rows b at a time, each with all rows a. What a number stands for is made where the layer below is loaded
// (`number`) and undone where the entries are written (`entry_of`); between them 0 is none, and the greater wins.
ghost use Rattle.std.specs.Prelude.{◌≡◌, false, ℕ, ◌+◌, ◌*◌, ◌<◌, ◌≤◌, ◌^◌, length, get_or};
ghost use Rattle.board.specs.Boards.{max_width};
ghost use Rattle.rule.specs.Rule.{entry_of};
ghost use Rattle.elimination.specs.Table.{fill_entries, Apart};
ghost use Rattle.score_table.specs.Rows.{row_gain};
ghost use Rattle.score_table.specs.ScoreTable.{kind_for};
ghost use Rattle.score_table.specs.Inner.{Memory};
ghost use Rattle.column_elimination.specs.Columns.{Keeps, scored, loaded, after_last, entry_in, entry_by, front, Turned, Ended};
ghost use Rattle.column_elimination.specs.Written.{Wrote, Spread};
ghost use Rattle.column_elimination.proofs.Layers.{Partly};
ghost use Rattle.layers.specs.Layers.{Gained, LayerLent};

use columns::{LAST_MASKS, MASKS, VECTOR};
use score_table::{Entries, Grid, NONE};

// The rows of the widest grid.
const ROWS: usize = 1 << board::MAX_WIDTH;

// What every eight rows of a layer are filled by: the width and number of rows, the greatest number read that counts, of each pattern whether its middle
// cell keeps its state, and what rows earn and 1.
#[derive(Clone, Copy)]
struct Rows<'a> {
    w: usize,
    n: usize,
    limit: u16,
    keep: &'a [u16; 512],
    worth: &'a [u16; ROWS],
    ghost number: { (w ≤ max_width) × (n ≡ 2 ^ w) },
    ghost gained: { Gained w limit worth.now },
}

// The layer that starts at `target`, by the layer that starts at `source`.
pub fn fill(grid: Grid<'_>, entries: Entries, table: &mut [u16])
    requires { LayerLent grid.want grid.width grid.height entries.after entries.source entries.target grid.givens.now table.old }
    ensures { table.new ≡ fill_entries (kind_for grid.entry.want (entry_of grid.entry.next.now) grid.entry.width grid.entry.height grid.entry.givens.now) entries.after entries.source entries.target 0 (4 ^ grid.entry.width) table.old }
{
    let n = 1 << grid.width;
    let mut worth = [0; ROWS];
    gains(grid, n, grid.height - entries.after, &mut worth);
    let mut keep = [0; 512];
    columns::keeps(grid.next, &mut keep);
    let rows = Rows {
        w: grid.width,
        n,
        limit: grid.want.limit as u16,
        keep: &keep,
        worth: &worth,
    };
    fill_rows(rows, entries.source, entries.target, table);
}

// The entries of every row b, eight rows at a time.
fn fill_rows(rows: Rows<'_>, source: usize, target: usize, table: &mut [u16])
    requires { (3 ≤ rows.w) × Apart (2 ^ rows.w * 2 ^ rows.w) source target × (source + 2 ^ rows.w * 2 ^ rows.w ≤ length table.old) × (target + 2 ^ rows.w * 2 ^ rows.w ≤ length table.old) }
    ensures { (next : ℕ → ℕ) → Keeps next rows.entry.keep.now → Partly (2 ^ rows.entry.w) target (2 ^ rows.entry.w) (λ a b. entry_by rows.entry.limit next rows.entry.w (λ c. get_or rows.entry.worth.now c 0) table.old source a b) table.old table.new }
{
    // Two arrays, and not one struct of both: so the compiler sees that they lie apart, and eight lanes become one instruction.
    let mut even = [0; VECTOR];
    let mut odd = [0; VECTOR];
    for v in 0..rows.n / 8 {
        fill_eight(rows, 8 * v, source, target, table, &mut even, &mut odd);
    }
}

// What each row earns as the one with r rows above it and 1; 0 where it doesn't keep the givens.
fn gains(grid: Grid<'_>, n: usize, r: usize, worth: &mut [u16; ROWS])
    requires { Memory false grid.width grid.height grid.givens.now × (n ≡ 2 ^ grid.width) × (r < grid.height) }
    ensures { Wrote 0 (2 ^ grid.entry.width) (row_gain grid.entry.width grid.entry.givens.now (r * grid.entry.width)) worth.old worth.new }
{
    for c in 0..n {
        worth[c] = score_table::row_gain(grid.width, grid.height, r, c, grid.givens) as u16;
    }
}

// The entries of eight rows b below every row a. After an even number of columns the one vector holds their numbers, after an odd number the other.
fn fill_eight(
    rows: Rows<'_>,
    b: usize,
    source: usize,
    target: usize,
    table: &mut [u16],
    even: &mut [u16; VECTOR],
    odd: &mut [u16; VECTOR],
)
    requires { (b + 8 ≤ 2 ^ rows.w) × (source + 2 ^ rows.w * 2 ^ rows.w ≤ length table.old) × (target + 2 ^ rows.w * 2 ^ rows.w ≤ length table.old) }
    ensures { (next : ℕ → ℕ) → Keeps next rows.entry.keep.now → Spread (2 ^ rows.entry.w) target b (2 ^ rows.entry.w) (λ a l. entry_by rows.entry.limit next rows.entry.w (λ c. get_or rows.entry.worth.now c 0) table.old source a (b + l)) table.old table.new }
{
    load(rows, table, source + b * rows.n, even);
    let mut masks = [0; MASKS];
    for j in 0..rows.w {
        turn(rows, b, j, even, odd, &mut masks);
    }
    finish(rows, b, even, odd, table, target);
}

// Loads the numbers of eight rows b, whose entries start at `first`; the two cells before those of row c are dead.
fn load(rows: Rows<'_>, table: &[u16], first: usize, vector: &mut [u16; VECTOR])
    requires { first + 8 * rows.n ≤ length table.now }
    ensures { Wrote 0 (32 * rows.entry.n) (loaded rows.entry.limit rows.entry.n rows.entry.worth.now table.now first) vector.old vector.new }
{
    let n = rows.n;
    for c in 0..n {
        load_eight(
            rows.limit,
            rows.worth[c],
            n,
            table,
            first + c,
            vector,
            8 * c,
        );
    }
    vector[8 * n..32 * n].fill(0);
}

// Loads the numbers of one row c, by its gain, for eight rows b.
fn load_eight(
    limit: u16,
    gain: u16,
    n: usize,
    table: &[u16],
    at: usize,
    vector: &mut [u16; VECTOR],
    o: usize,
)
    requires { (gain + limit ≤ 65535) × (n ≤ 1024) × (at + 7 * n < length table.now) × (o + 8 ≤ 32768) }
    ensures { Wrote o 8 (λ l. scored limit gain (get_or table.now (at + l * n) 0)) vector.old vector.new }
{
    for l in 0..8 {
        vector[o + l] = number(limit, gain, table[at + l * n]);
    }
}

// The number of a row: what it earns and 1, with the entry read for it; 0 where it doesn't keep the givens, or the entry counts as none. No option: eight
// such numbers are compared at once.
#[tactic(auto, unfolding(column_elimination::specs::Columns::scored))]
fn number(limit: u16, gain: u16, entry: u16) -> u16
    requires { gain + limit ≤ 65535 }
    ensures { result ≡ scored limit gain entry }
{
    if gain == 0 || limit < entry {
        0
    } else {
        gain + entry
    }
}

// Column j, from one vector to the other.
fn turn(
    rows: Rows<'_>,
    b: usize,
    j: usize,
    even: &mut [u16; VECTOR],
    odd: &mut [u16; VECTOR],
    masks: &mut [u16; MASKS],
)
    requires { (b + 8 ≤ 2 ^ rows.w) × (j < rows.w) }
    ensures { (next : ℕ → ℕ) → Keeps next rows.entry.keep.now → Turned next rows.entry.w b j even.old odd.old even.new odd.new }
{
    columns::column_masks(rows.keep, rows.w, b, j, masks);
    if j % 2 == 0 {
        columns::column(even, masks, rows.w, j, odd);
    } else {
        columns::column(odd, masks, rows.w, j, even);
    }
}

// The last two columns, and the entries.
fn finish(
    rows: Rows<'_>,
    b: usize,
    even: &[u16; VECTOR],
    odd: &[u16; VECTOR],
    table: &mut [u16],
    target: usize,
)
    requires { (b + 8 ≤ 2 ^ rows.w) × (target + 2 ^ rows.w * 2 ^ rows.w ≤ length table.old) }
    ensures { (next : ℕ → ℕ) → Keeps next rows.entry.keep.now → Ended next rows.entry.w b target (front rows.entry.w even.now odd.now) table.old table.new }
{
    let mut last = [0; LAST_MASKS];
    columns::last_masks(rows.keep, rows.w, b, &mut last);
    let numbers = if rows.w % 2 == 0 { even } else { odd };
    write_all(numbers, &last, rows.n, table, target, b);
}

// The entries of eight rows b below every row a, by the last two columns.
fn write_all(
    src: &[u16; VECTOR],
    last: &[u16; LAST_MASKS],
    n: usize,
    table: &mut [u16],
    target: usize,
    b: usize,
)
    requires { (n ≤ 1024) × (b + 8 ≤ n) × (target + n * n ≤ length table.old) }
    ensures { Spread n target b n (λ a l. entry_in (after_last src.now last.now a l)) table.old table.new }
{
    for a in 0..n {
        write_eight(src, last, a, table, target + a * n + b);
    }
}

// The entries of eight rows b below one row a, from a place of the table on.
fn write_eight(src: &[u16; VECTOR], last: &[u16; LAST_MASKS], a: usize, table: &mut [u16], o: usize)
    requires { (a < 1024) × (o + 8 ≤ length table.old) }
    ensures { Wrote o 8 (λ l. entry_in (after_last src.now last.now a l)) table.old table.new }
{
    let x = 32 * a;
    let m = 32 * (a % 4);
    for l in 0..8 {
        let u = columns::top(src[x + l] & last[m + l], src[x + 16 + l] & last[m + 16 + l]);
        let v = columns::top(
            src[x + 8 + l] & last[m + 8 + l],
            src[x + 24 + l] & last[m + 24 + l],
        );
        table[o + l] = entry_of(columns::top(u, v));
    }
}

// The entry of a number.
#[tactic(auto, unfolding(column_elimination::specs::Columns::entry_in))]
fn entry_of(v: u16) -> u16
    ensures { result ≡ entry_in v }
{
    if v == 0 { NONE } else { v - 1 }
}
