// Rows of letters as rows of cells.
ghost use Rattle.std.specs.Prelude.{◌≡◌, ◌++◌, map, ◌≤◌, length, drop};
ghost use Rattle.writer.specs.Letters.{letter_cell};
ghost use Rattle.plaintext.specs.Reading.{filled};

// Writes a row's cells at the start of the cells, filled with dead cells to width w.
pub fn fill_row(w: usize, row: &[u8], cells: &mut [u8])
    requires { (length row.now ≤ w) × (w ≤ length cells.old) }
    ensures { cells.new ≡ filled w (map letter_cell row.now) ++ drop w cells.old }
{
    // Through `cells.iter_mut().zip(row)` a proof wouldn't know the cells that were written.
    for (k, letter) in row.iter().enumerate() {
        cells[k] = cell(*letter);
    }
    cells[row.len()..w].fill(0);
}

// A letter's cell.
fn cell(letter: u8) -> u8
    ensures { result ≡ letter_cell letter }
{
    if letter == b'O' { 1 } else { 0 }
}
