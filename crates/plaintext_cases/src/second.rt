// A second reader of short texts, for comparison: it asks of each byte which line it stands in, by looking back from it.
use crate::common::byte_at;
use board::Refusal;
use plaintext::Size;

// The live cells of up to eight rows of eight.
pub type Grid = [[u8; 8]; 8];

// A text that is read from a place on.
#[derive(Clone, Copy)]
struct Text<'a> {
    bytes: &'a [u8],
    at: usize,
}

impl<'a> Text<'a> {
    // Where the line of the byte at a place starts.
    fn line_start(self, i: usize) -> usize {
        (self.at..i)
            .rev()
            .find(|k| byte_at(self.bytes, *k) == b'\n')
            .map_or(self.at, |k| k.wrapping_add(1))
    }

    fn in_comment(self, i: usize) -> bool {
        byte_at(self.bytes, self.line_start(i)) == b'!'
    }

    fn is_allowed(self, i: usize) -> bool {
        match byte_at(self.bytes, i) {
            b'.' | b'O' | b'\n' => true,
            b'\r' if byte_at(self.bytes, i.wrapping_add(1)) == b'\n' => true,
            _ => self.in_comment(i),
        }
    }

    // Whether a row starts at a place.
    fn row_starts(self, i: usize) -> bool {
        !self.in_comment(i) && self.line_start(i) == i
    }

    // How many rows start before a place.
    fn rows_before(self, end: usize) -> usize {
        (self.at..end).filter(|i| self.row_starts(*i)).count()
    }

    // The column of a letter, from 1; 0 where there is no letter of a row.
    fn column(self, i: usize) -> usize {
        match byte_at(self.bytes, i) {
            b'.' | b'O' if !self.in_comment(i) => i
                .wrapping_sub(self.line_start(i))
                .wrapping_add(1),
            _ => 0,
        }
    }

    // Marks a live cell.
    fn mark(self, i: usize, grid: &mut Grid) {
        let row = self.rows_before(self.line_start(i));
        let c = self.column(i);
        if row < 8 && 0 < c && c < 9 && byte_at(self.bytes, i) == b'O' {
            grid[row][c - 1] = 1;
        }
    }
}

// What reading a text of a few bytes from a place on answers, into room enough; its live cells are marked in the grid.
pub fn read(bytes: &[u8], at: usize, grid: &mut Grid) -> Result<Size, Refusal> {
    let text = Text { bytes, at };
    let mut width = 0;
    for i in at..bytes.len() {
        if !text.is_allowed(i) {
            return Err(Refusal::Letter(i));
        }
        text.mark(i, &mut *grid);
        width = width.max(text.column(i));
    }
    let height = text.rows_before(bytes.len());
    if height == 0 {
        return Err(Refusal::Height);
    }
    if width == 0 {
        return Err(Refusal::Width);
    }
    Ok(Size { width, height })
}
