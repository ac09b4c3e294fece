// A plain judge of a printed board, for comparison: it counts live cells, and neighbours one by one.
use std::fmt;
use std::fmt::{Display, Formatter, Write};

// A grid's size.
#[derive(Clone, Copy)]
pub struct Size {
    pub width: usize,
    pub height: usize,
}

impl Display for Size {
    fn fmt<W: Write>(&self, f: &mut Formatter<W>) -> fmt::Result {
        write!(f, "{} by {}", self.width, self.height)
    }
}

// The letters of a board of up to 60 rows of 10, in rows of 14, with two dead cells or more on each side.
type Plane = [u8; 900];

// Prints what a board that follows a first line is.
pub fn print(size: Size, answer: &[u8]) {
    let plane = read(answer);
    let rows = if has_rows(size, answer) {
        ""
    } else {
        "not so many rows, "
    };
    let still = if still(&plane) { "" } else { "not " };
    let _ = writeln!(
        report::Output,
        "  judged apart: {rows}{still}still, live cells {}",
        live(&plane)
    );
}

// Whether so many rows of so many letters, each with LF, follow the first line.
fn has_rows(size: Size, answer: &[u8]) -> bool {
    // Made twice, since a chain's clone is a `Result` here.
    let mut rows = answer.split_inclusive(|b| *b == b'\n').skip(1);
    answer.split_inclusive(|b| *b == b'\n').skip(1).count() == size.height
        && rows.all(|row| row
            .strip_suffix(b"\n")
            .is_some_and(|letters| letters.len() == size.width))
}

fn read(answer: &[u8]) -> Plane {
    let mut plane = [b'.'; 900];
    let lines = answer.split(|b| *b == b'\n').skip(1);
    for (cells, line) in plane.chunks_mut(14).skip(2).take(60).zip(lines) {
        for (cell, letter) in cells.iter_mut().skip(2).take(10).zip(line.iter()) {
            *cell = *letter;
        }
    }
    plane
}

// Whether each cell of the plane keeps its state.
fn still(plane: &Plane) -> bool {
    plane.windows(31).all(|part| kept(part))
}

// Whether the middle one of 31 cells keeps its state. In rows of 14 it and its neighbours are the first three columns.
fn kept(part: &[u8]) -> bool {
    let neighbours = part
        .iter()
        .enumerate()
        .filter(|(k, cell)| k % 14 < 3 && *k != 15 && **cell == b'O')
        .count();
    if part.get(15) == Some(&b'O') {
        neighbours == 2 || neighbours == 3
    } else {
        neighbours != 3
    }
}

fn live(plane: &Plane) -> usize {
    plane.iter().filter(|cell| **cell == b'O').count()
}
