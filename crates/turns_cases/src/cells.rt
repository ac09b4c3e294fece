// Cells by rows and columns: a grid's marks, a board's states, or a list of numbers.
ghost use Rattle.std.specs.Prelude.{◌≤◌};

use std::fmt::Write;

// More than any size tried has.
pub const CELLS: usize = 32;

// The cells in reading order. Past w × h a grid and a list have 0s, and a board what was there.
#[derive(Clone, Copy, PartialEq, Eq)]
pub struct Cells {
    pub w: usize,
    pub h: usize,
    pub at: [u8; CELLS],
}

pub fn blank(w: usize, h: usize) -> Cells {
    Cells {
        w,
        h,
        at: [0; CELLS],
    }
}

// w × h, or no more than there is room for.
pub fn count(w: usize, h: usize) -> usize
    ensures { result ≤ 32 }
{
    w.wrapping_mul(h).min(CELLS)
}

// The row and the column of a place, from 0.
pub fn row(w: usize, place: usize) -> usize {
    if w == 0 { 0 } else { place / w }
}

pub fn column(w: usize, place: usize) -> usize {
    if w == 0 { 0 } else { place % w }
}

// The place of a row and a column.
pub fn place(w: usize, r: usize, c: usize) -> usize {
    w.wrapping_mul(r).wrapping_add(c)
}

// The cell of a row and a column, 0 outside.
pub fn cell(a: Cells, r: usize, c: usize) -> u8 {
    if a.w <= c || a.h <= r {
        return 0;
    }
    match a.at.get(place(a.w, r, c)) {
        Some(x) => *x,
        None => 0,
    }
}

// Row or column k of n, counted from the other end.
pub fn from_end(n: usize, k: usize) -> usize {
    n.wrapping_sub(k.wrapping_add(1))
}

// The numbers from 1 on.
pub fn list(w: usize, h: usize) -> Cells {
    let mut next = blank(w, h);
    for k in 0..count(w, h) {
        next.at[k] = (k + 1) as u8;
    }
    next
}

// Prints the cells, a space before each row.
pub fn print(a: Cells) {
    for (k, x) in a.at.iter().take(count(a.w, a.h)).enumerate() {
        if column(a.w, k) == 0 {
            report::text(" ");
        }
        let _ = write!(report::Output, "{x}");
    }
}
