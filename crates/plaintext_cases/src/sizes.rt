// Boards of every size, with pseudo-random cells: written into a text one byte short, just long enough and longer, and read back.
use crate::common;
use crate::common::Counts;
use board::Refusal;
use plaintext::Size;
use std::ops::Range;

// Pseudo-random numbers (Lehmer's generator).
#[derive(Drop)]
struct Random(u64);

impl Random {
    fn next(&mut self) -> u64 {
        self.0 = self.0 % 2147483647 * 16807 % 2147483647;
        self.0
    }

    fn fill(&mut self, board: &mut [u8]) {
        for cell in board.iter_mut() {
            *cell = u8::from(self.next() % 2 != 0);
        }
    }
}

#[derive(Clone, Copy)]
struct Board<'a> {
    w: usize,
    h: usize,
    cells: &'a [u8],
}

impl<'a> Board<'a> {
    // The length of its text.
    fn length(self) -> usize {
        self.cells.len().wrapping_add(self.h)
    }

    fn write(self, part: Range<usize>) -> (Result<usize, Refusal>, [u8; 700]) {
        common::write(self.w, self.h, self.cells, part)
    }

    // Into one byte less than it needs.
    fn written_short(self) -> bool {
        let (answer, text) = self.write(0..self.length().wrapping_sub(1));
        answer == Err(Refusal::ShortOutput) && common::is_left(&text)
    }

    // Into more than it needs: read whole, the first byte after the text is refused.
    fn written_long(self) -> bool {
        let length = self.length();
        let (answer, text) = self.write(0..700);
        let (back, _) = common::read::<700>(&text, 0, 700);
        answer == Ok(length)
            && common::is_left(common::rest(&text, length))
            && back == Err(Refusal::Letter(length))
    }

    // Whether a text from place 1 on, read into n cells, is the board.
    fn is_read(self, text: &[u8], n: usize) -> bool {
        let (answer, cells) = common::read::<700>(text, 1, n);
        let size = Size {
            width: self.w,
            height: self.h,
        };
        answer == Ok(size)
            && cells.starts_with(self.cells)
            && common::is_left(common::rest(&cells, self.cells.len()))
    }

    // Behind one byte, into as much as it needs; and read back into more cells, as many, and one fewer.
    fn read_back(self) -> bool {
        let length = self.length();
        let end = length.wrapping_add(1);
        let n = self.cells.len();
        let (answer, text) = self.write(1..end);
        let written = common::first(&text, end);
        answer == Ok(length)
            && common::is_left(common::rest(&text, end))
            && self.is_read(written, 700)
            && self.is_read(written, n)
            && common::lacks_cells::<700>(written, 1, n.wrapping_sub(1))
    }
}

pub fn run() {
    let mut counts = Counts::new();
    let mut random = Random(1);
    for w in 1..=10 {
        for h in 1..=60 {
            let mut cells = [0; 600];
            random.fill(&mut cells);
            let board = Board {
                w,
                h,
                cells: common::first(&cells, w * h),
            };
            counts.judge(10, board.written_short());
            counts.judge(0, board.written_long());
            counts.judge(0, board.read_back());
        }
    }
    counts.print(b"600 sizes written short, written long, and read back:");
}
