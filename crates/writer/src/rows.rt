// Rows of cells as rows of letters.
ghost use Rattle.std.specs.Prelude.{◌≡◌, ◌++◌, ◌+◌, ◌*◌, ◌/◌, ◌<◌, ◌≤◌, length, drop};
ghost use Rattle.writer.specs.Letters.{letter_of};
ghost use Rattle.writer.specs.Writing.{row_text, text_length, text_over};

// Writes rows of w cells as text.
pub fn write_rows(w: usize, cells: &[u8], text: &mut [u8])
    requires { let h = length cells.now / w in (0 < w) × (length cells.now ≡ w * h) × (text_length w h ≤ length text.old) }
    ensures { let h = length cells.now / w in text.new ≡ text_over w h cells.now text.old }
{
    for (j, row) in cells.chunks_exact(w).enumerate() {
        write_row(row, &mut text[j * (w + 1)..]);
    }
}

// Writes a row's letters and LF at the start of the text.
fn write_row(row: &[u8], text: &mut [u8])
    requires { length row.now < length text.old }
    ensures { text.new ≡ row_text row.now ++ drop (length row.now + 1) text.old }
{
    // Through `text.iter_mut().zip(row)` a proof wouldn't know the letters that were written.
    for (k, cell) in row.iter().enumerate() {
        text[k] = letter(*cell);
    }
    text[row.len()] = b'\n';
}

// A cell's letter.
fn letter(cell: u8) -> u8
    ensures { result ≡ letter_of cell }
{
    if cell == 0 { b'.' } else { b'O' }
}
