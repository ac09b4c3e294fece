// Rows of a board: a row's cells go from its number straight into the board that is lent, and stand as bytes nowhere else.
#![tactic(auto)]

ghost use Rattle.std.specs.Prelude.{◌≡◌, ◌+◌, ◌≤◌, length};
ghost use Rattle.life.specs.Rows.{digit_at};
ghost use Rattle.board.specs.Lists.{listed};
ghost use Rattle.board_rows.specs.Rows.{row_cell};
ghost use Rattle.board_rows.specs.Calls.{row_writes};

// Writes the row with r rows above it, of w cells, from a number of so many binary digits. The digits are its cells from the left; a row of up to
// twice as many cells goes on with their reflection. A row that doesn't lie within the board isn't written.
pub fn write_row(bits: usize, w: usize, r: usize, row: usize, board: &mut [u8])
    ensures { board.new ≡ row_writes bits w r row board.old }
{
    if w == 0 {
        return;
    }
    if board.len() / w <= r {
        return;
    }
    let at = r * w;
    write_cells(bits, row, &mut board[at..at + w]);
}

// Writes a row's cells, from column 1 on.
fn write_cells(bits: usize, row: usize, cells: &mut [u8])
    ensures { cells.new ≡ listed (row_cell bits row) (length cells.old) }
{
    for (k, cell) in cells.iter_mut().enumerate() {
        *cell = cell_at(bits, row, k);
    }
}

// The cell in column k + 1 of a row, from its number.
fn cell_at(bits: usize, row: usize, k: usize) -> u8
    ensures { result ≡ row_cell bits row k }
{
    if k < bits {
        digit(row, bits - (k + 1))
    } else {
        digit(row, k - bits)
    }
}

// A number's binary digit that is worth 2^i.
fn digit(n: usize, i: usize) -> u8
    ensures { result ≡ digit_at n i }
{
    if 64 <= i {
        return 0;
    }
    ((n >> i) % 2) as u8
}
