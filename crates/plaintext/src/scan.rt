// A text, line by line: its size, or the place of its first byte that isn't allowed; and its rows as cells.
ghost use Rattle.std.specs.Prelude.{◌≡◌, ◌*◌, ◌≤◌, length};
ghost use Rattle.plaintext.specs.Reading.{judged, first_bad, rows_of, width_of, board_over};
ghost use Rattle.plaintext.specs.Scanning.{measure_of};

use crate::Size;
use crate::line::Lines;
use crate::rows::fill_row;
use board::Refusal;

// The size of the board that a text holds. Refusal 8, with the place of the first byte that isn't allowed.
pub fn measure(text: &[u8], at: usize) -> Result<Size, Refusal>
    ensures { result ≡ measure_of (first_bad (judged text.now at)) (rows_of (judged text.now at)) }
{
    let mut width = 0;
    let mut height = 0;
    for line in Lines::new(text, at) {
        if let Some(row) = line.row()? {
            width = width.max(row.len());
            height += 1;
        }
    }
    Ok(Size { width, height })
}

// Writes the rows of a text as cells of a board of width w.
pub fn fill(text: &[u8], at: usize, w: usize, cells: &mut [u8])
    requires { (w ≡ width_of (rows_of (judged text.now at))) × (w * length (rows_of (judged text.now at)) ≤ length cells.old) }
    ensures { cells.new ≡ board_over (rows_of (judged text.now at)) cells.old }
{
    // Through `cells.chunks_exact_mut(w)` a proof wouldn't know the cells that were written.
    let mut k = 0;
    for line in Lines::new(text, at) {
        let Ok(Some(row)) = line.row() else {
            continue;
        };
        fill_row(w, row, &mut cells[k..]);
        k += w;
    }
}
