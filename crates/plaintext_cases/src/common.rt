// What the groups share: calls on fresh buffers, and counts of what they answer.
ghost use Rattle.std.specs.Prelude.{◌<◌, ◌^◌};

use board::Refusal;
use plaintext::Size;
use std::ops::Range;

// What every buffer holds before a call.
pub const LEFT: u8 = 9;

// The number of an answer: that of its refusal, or 0.
pub fn number<T>(answer: &Result<T, Refusal>) -> usize {
    match answer {
        Ok(_) => 0,
        Err(refusal) => refusal.number() as usize,
    }
}

// Reads the text from a place on into the first n of N cells. Where there are fewer it answers 12, which the library never does.
pub fn read<const N: usize>(text: &[u8], at: usize, n: usize) -> (Result<Size, Refusal>, [u8; N]) {
    let mut cells = [LEFT; N];
    let answer = match cells.get_mut(..n) {
        Some(part) => reader::read_text(text, at, part),
        None => Err(Refusal::LongText),
    };
    (answer, cells)
}

// Whether reading into n of N cells is refused for want of cells, and leaves them.
pub fn lacks_cells<const N: usize>(text: &[u8], at: usize, n: usize) -> bool
    requires { N < 2 ^ 63 }
{
    let (answer, cells) = read::<N>(text, at, n);
    answer == Err(Refusal::BoardLength) && is_left(&cells)
}

// Writes a board into a part of a text of N bytes. Where the text has no such part it answers 12.
pub fn write<const N: usize>(
    w: usize,
    h: usize,
    board: &[u8],
    part: Range<usize>,
) -> (Result<usize, Refusal>, [u8; N]) {
    let mut text = [LEFT; N];
    let answer = match text.get_mut(part) {
        Some(part) => writer::write(w, h, board, part),
        None => Err(Refusal::LongText),
    };
    (answer, text)
}

pub fn byte_at(s: &[u8], i: usize) -> u8 {
    s.get(i).copied().unwrap_or(0)
}

// The first n bytes, or all where there are fewer.
pub fn first(s: &[u8], n: usize) -> &[u8] {
    s.get(..n).unwrap_or(s)
}

// The bytes from a place on.
pub fn rest(s: &[u8], at: usize) -> &[u8] {
    s.get(at..).unwrap_or(&[])
}

// Whether the bytes are as they were before the call.
pub fn is_left(s: &[u8]) -> bool {
    s.iter().all(|byte| *byte == LEFT)
}

// How often each number was answered: 0 for what was read or written, 1 to 12 for each refusal of these calls, which never answer 13 or 14;
// 13 for what came out wrong.
#[derive(Drop)]
pub struct Counts([u64; 14]);

const WRONG: usize = 13;

impl Counts {
    pub fn new() -> Counts {
        Counts([0; 14])
    }

    // Counts an answer, and whether it is wrong.
    pub fn judge(&mut self, number: usize, right: bool) {
        self.count(number);
        if !right {
            self.count(WRONG);
        }
    }

    fn count(&mut self, number: usize) {
        if let Some(n) = self.0.get_mut(number) {
            *n = n.wrapping_add(1);
        }
    }

    // A group's line: its name, and the counts that aren't 0.
    pub fn print(&self, name: &[u8]) {
        io::write_all(1, name);
        for (number, count) in self.0.iter().enumerate() {
            print_one(number, *count);
        }
        io::write_all(1, b"\n");
    }
}

fn print_one(number: usize, count: u64) {
    if number == WRONG {
        io::write_all(1, b", wrong ");
    } else if count == 0 {
        return;
    } else if number == 0 {
        io::write_all(1, b" passed ");
    } else {
        io::write_all(1, b", refused with ");
        io::print_decimal(1, number as u64);
        io::write_all(1, b": ");
    }
    io::print_decimal(1, count);
}
