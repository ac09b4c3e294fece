// Text out: a board in the plaintext form, rows of `.` and `O`, each ended by LF. Any input is taken or refused; a refused call writes
// nothing.
#![tactic(auto)]

ghost use Rattle.writer.specs.Writing.{WritesText};

use board::Refusal;

mod rows;

// Writes a board as h rows of w letters, each with LF, and answers the text's length. Refusals 1, 2, 5, 11, 10.
pub fn write(w: usize, h: usize, cells: &[u8], text: &mut [u8]) -> Result<usize, Refusal>
    ensures { WritesText w h cells.now text.old text.new result }
{
    board::check_board(w, h, cells)?;
    let length = h * (w + 1);
    if text.len() < length {
        return Err(Refusal::ShortOutput);
    }
    rows::write_rows(w, cells, text);
    Ok(length)
}
