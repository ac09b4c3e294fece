// The eight turns, in two ways that share nothing but rows, columns and places, from either end: by steps, where each looks up what comes to a place, and in
// one step, which says where each cell goes.
use crate::cells;
use crate::cells::Cells;
use std::fmt::Write;

// Left and right exchanged or not, and then quarter turns clockwise, 0 to 3.
#[derive(Clone, Copy)]
pub struct Turn {
    pub reflected: bool,
    pub quarters: usize,
}

// The turns by number, 0 to 7.
pub fn numbered(n: usize) -> Turn {
    Turn {
        reflected: n / 4 % 2 == 1,
        quarters: n % 4,
    }
}

// Prints a turn.
pub fn print(t: Turn) {
    if t.reflected {
        report::text(", left and right exchanged");
    }
    let _ = write!(report::Output, ", quarter turns {}", t.quarters);
}

// The turn that is t and then u.
pub fn then(t: Turn, u: Turn) -> Turn {
    let before = t.quarters % 4;
    let after = u.quarters % 4;
    Turn {
        reflected: t.reflected != u.reflected,
        quarters: if u.reflected {
            (after + 4 - before) % 4
        } else {
            (after + before) % 4
        },
    }
}

// The turn that undoes t.
pub fn inverse(t: Turn) -> Turn {
    Turn {
        reflected: t.reflected,
        quarters: if t.reflected {
            t.quarters % 4
        } else {
            (4 - t.quarters % 4) % 4
        },
    }
}

// Turned by an exchange and quarter turns, one after the other.
pub fn by_steps(t: Turn, a: Cells) -> Cells {
    let mut next = if t.reflected { exchanged(a) } else { a };
    for _ in 0..t.quarters {
        next = quarter(next);
    }
    next
}

// Left and right exchanged.
fn exchanged(a: Cells) -> Cells {
    cells_by(a.w, a.h, |r, c| cells::cell(a, r, cells::from_end(a.w, c)))
}

// A quarter turn clockwise: a column from its foot up becomes a row.
fn quarter(a: Cells) -> Cells {
    cells_by(a.h, a.w, |r, c| cells::cell(a, cells::from_end(a.h, c), r))
}

// The cells of a size, by row and column.
fn cells_by<F: Fn(usize, usize) -> u8>(w: usize, h: usize, cell: F) -> Cells
    requires { F.IsAlwaysCallable cell }
{
    let mut next = cells::blank(w, h);
    for k in 0..cells::CELLS {
        next.at[k] = cell(cells::row(w, k), cells::column(w, k));
    }
    next
}

// Turned in one step: each cell is set where it goes.
pub fn at_once(t: Turn, a: Cells) -> Cells {
    let mut next = size_after(t, a.w, a.h);
    for k in 0..cells::CELLS {
        if let Some(p) = place_after(t, a.w, a.h, k) {
            if p < cells::CELLS {
                next.at[p] = a.at[k];
            }
        }
    }
    next
}

// Dead cells of the turned size.
fn size_after(t: Turn, w: usize, h: usize) -> Cells {
    if t.quarters % 2 == 0 {
        cells::blank(w, h)
    } else {
        cells::blank(h, w)
    }
}

// Where a cell goes; none for a place that is no cell.
fn place_after(t: Turn, w: usize, h: usize, k: usize) -> Option<usize> {
    let r = cells::row(w, k);
    if h <= r {
        return None;
    }
    let left = cells::column(w, k);
    let right = cells::from_end(w, left);
    let c = if t.reflected { right } else { left };
    let opposite = if t.reflected { left } else { right };
    let below = cells::from_end(h, r);
    Some(match t.quarters {
        0 => cells::place(w, r, c),
        1 => cells::place(h, c, below),
        2 => cells::place(w, below, opposite),
        _ => cells::place(h, opposite, r),
    })
}
