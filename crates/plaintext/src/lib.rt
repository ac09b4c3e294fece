// Text in: boards in the plaintext form, rows of `.` and `O`, each ended by LF, and comments, which start with `!`. Any input is taken or
// refused; a refused call writes nothing. What `writer` writes from a board is read back as that board.
#![tactic(auto)]

ghost use Rattle.plaintext.specs.Reading.{ReadsText};

use board::Refusal;

mod line;
mod rows;
mod scan;

// The size of a board that is read.
#[derive(Clone, Copy, Debug, PartialEq, Eq)]
pub struct Size {
    pub width: usize,
    pub height: usize,
}

// Reads the text that stands from a place of the bytes on, into the first cells, and answers the board's size. Refusals 8, 2, 1, 5.
pub fn read_at(text: &[u8], at: usize, cells: &mut [u8]) -> Result<Size, Refusal>
    ensures { ReadsText text.now at cells.old cells.new result }
{
    let size = scan::measure(text, at)?;
    board::check_height(size.height)?;
    board::check_width(size.width)?;
    if cells.len() < size.width * size.height {
        return Err(Refusal::BoardLength);
    }
    scan::fill(text, at, size.width, cells);
    Ok(size)
}
