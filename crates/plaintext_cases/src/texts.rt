// Every text of up to five bytes over `.`, `O`, `!`, CR, LF and x, read from each of its places and from one past its end, by the library
// and by a second reader; and where it is a board, into just its cells and into one fewer.
use crate::common::{Counts, LEFT};
use crate::second::Grid;
use crate::{common, second};
use board::Refusal;
use plaintext::Size;

const SYMBOLS: [u8; 6] = *b".O!\r\nx";

// The five symbols of a number.
fn text_of(index: usize) -> [u8; 5] {
    let mut text = [0; 5];
    let mut left = index;
    for byte in text.iter_mut() {
        *byte = SYMBOLS[left % 6];
        left /= 6;
    }
    text
}

// What cell i holds after a reading: the second reader's, and past its board what it held.
fn wanted(grid: &Grid, answer: Result<Size, Refusal>, i: usize) -> u8 {
    match answer {
        Ok(size) if size.width != 0 => {
            let row = i / size.width;
            let column = i % size.width;
            if row < size.height && row < 8 && column < 8 {
                grid[row][column]
            } else {
                LEFT
            }
        }
        _ => LEFT,
    }
}

fn same_cells(cells: &[u8; 40], grid: &Grid, answer: Result<Size, Refusal>) -> bool {
    cells
        .iter()
        .enumerate()
        .all(|(i, cell)| *cell == wanted(grid, answer, i))
}

// Just as many cells as the board has, and one fewer.
fn right_room(text: &[u8], at: usize, size: Size) -> bool {
    let n = size.width.wrapping_mul(size.height);
    common::read::<40>(text, at, n).0.is_ok()
        && common::lacks_cells::<40>(text, at, n.wrapping_sub(1))
}

fn right(text: &[u8], at: usize, got: Result<Size, Refusal>, cells: &[u8; 40]) -> bool {
    let mut grid = [[0; 8]; 8];
    let answer = second::read(text, at, &mut grid);
    if got != answer || !same_cells(cells, &grid, answer) {
        return false;
    }
    match got {
        Ok(size) => right_room(text, at, size),
        Err(_) => true,
    }
}

fn try_text(text: &[u8], at: usize, counts: &mut Counts) {
    let (got, cells) = common::read(text, at, 40);
    let fine = right(text, at, got, &cells);
    counts.judge(common::number(&got), fine);
    if !fine {
        io::write_all(1, b"wrong at ");
        io::print_decimal(1, at as u64);
        io::write_all(1, b": ");
        io::write_all(1, text);
        io::write_all(1, b"\n");
    }
}

pub fn run() {
    let mut counts = Counts::new();
    for (n, texts) in [1, 6, 36, 216, 1296, 7776].iter().enumerate() {
        for index in 0..*texts {
            for at in 0..n + 2 {
                try_text(common::first(&text_of(index), n), at, &mut counts);
            }
        }
    }
    counts.print(b"texts of up to 5 bytes, from each place:");
}
