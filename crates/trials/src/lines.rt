// A plain second way to find edge threes: by the live marks in a run along each edge.
ghost use Rattle.std.specs.Prelude.{◌<◌, IfSome};

use crate::{Size, plain};

// The place of the first middle one of three marks in a line along an edge.
pub(crate) fn first_three(s: Size, givens: &[u8], mark: usize) -> Option<usize>
    ensures { IfSome result (λ p. p < s.cells) }
{
    let last_row = s.cells.wrapping_sub(s.w);
    let last_column = s.w.wrapping_sub(1);
    let along = |from: usize, step: usize, n: usize| middle(givens, mark, s.cells, from, step, n);
    let across = along(0, 1, s.w).min(along(last_row, 1, s.w));
    let down = along(0, s.w, s.h).min(along(last_column, s.w, s.h));
    let place = across.min(down);
    if place < s.cells { Some(place) } else { None }
}

// The same of n cells from a place on, so many places apart, or a number past the cells where there is none.
fn middle(givens: &[u8], mark: usize, none: usize, from: usize, step: usize, n: usize) -> usize {
    let mut run = 0usize;
    let mut before = from;
    let mut place = from;
    for _ in 0..n {
        run = if plain::at(givens, place) == mark {
            run.wrapping_add(1)
        } else {
            0
        };
        if run == 3 {
            return before;
        }
        before = place;
        place = place.wrapping_add(step);
    }
    none
}
