// What cases are lent to be read: grids of givens, each mark with its reflection where the boards are mirror boards, and targets.
ghost use Rattle.std.specs.Prelude.{◌≤◌};

use crate::{CELLS, Size, plain};
use job_kind::Kind;
use rule::Rule;

// The cells of a row or a board that are free, given dead and given live, each as the digits of a number.
#[derive(Clone, Copy)]
pub(crate) struct Masks {
    free: usize,
    dead: usize,
    live: usize,
}

impl Masks {
    // Those of so many cells from a place on.
    pub(crate) fn of(givens: &[u8], from: usize, n: usize) -> Masks {
        Masks {
            free: marked(givens, from, n, 0),
            dead: marked(givens, from, n, 1),
            live: marked(givens, from, n, 2),
        }
    }

    // Those where every cell is free.
    pub(crate) fn free() -> Masks {
        Masks {
            free: usize::MAX,
            dead: 0,
            live: 0,
        }
    }

    // Whether cells, the digits of a number, keep their marks.
    pub(crate) fn keep(self, number: usize) -> bool {
        number & self.dead == 0 && number & self.live == self.live
    }

    // The live cells that are free.
    pub(crate) fn score(self, number: usize) -> usize
        ensures { result ≤ 64 }
    {
        (number & self.free).count_ones() as usize
    }
}

fn marked(givens: &[u8], from: usize, n: usize, mark: u8) -> usize {
    givens.iter().skip(from).take(n).fold(
        0usize,
        |x, given| x
            .wrapping_mul(2)
            .wrapping_add(if *given == mark { 1 } else { 0 }),
    )
}

// Writes a byte at a place, unless it is past the end.
pub(crate) fn put(cells: &mut [u8], k: usize, x: u8) {
    if let Some(cell) = cells.get_mut(k) {
        *cell = x;
    }
}

// A mark of the cells that are free to be chosen, in reading order, and its reflection where the boards are mirror boards.
fn put_mark(givens: &mut [u8], s: Size, k: usize, mark: u8) {
    if s.digits == 0 {
        return;
    }
    let place = (k / s.digits).wrapping_mul(s.w).wrapping_add(k % s.digits);
    put(givens, place, mark);
    if s.kind == Kind::Mirror {
        put(givens, s.reflection(place), mark);
    }
}

// Givens by the digits of a number to base 3, the first cell's least significant; a target by those to base 2, the last cell's least significant.
pub(crate) fn of_number(s: Size, number: usize) -> [u8; CELLS] {
    let mut marks = [0; CELLS];
    let mut rest = number;
    if s.kind == Kind::Predecessor {
        for k in 0..s.cells {
            put(&mut marks, s.cells - 1 - k, (rest % 2) as u8);
            rest = rest / 2;
        }
    } else {
        for k in 0..s.digits.wrapping_mul(s.h) {
            put_mark(&mut marks, s, k, (rest % 3) as u8);
            rest = rest / 3;
        }
    }
    marks
}

pub(crate) fn random(rule: Rule, s: Size, seed: usize) -> [u8; CELLS] {
    if s.kind == Kind::Predecessor {
        return random_target(rule, s, seed);
    }
    let most = pseudo_random::below(6, seed, 200000);
    let mut givens = [0; CELLS];
    for k in 0..s.digits.wrapping_mul(s.h) {
        put_mark(
            &mut givens,
            s,
            k,
            random_mark(most, seed, k.wrapping_add(200001)),
        );
    }
    givens
}

// A pseudo-random mark, few or many of them given by `most`.
fn random_mark(most: usize, seed: usize, place: usize) -> u8 {
    let x = pseudo_random::below(1000, seed, place);
    if most <= x % 8 {
        return 0;
    }
    // more dead ones than live ones, since most grids with many live ones have no still board
    if x / 8 % 3 == 0 { 2 } else { 1 }
}

// A pseudo-random target: what a board steps to, whether the ring stays dead or not, the same with a cell altered, or any cells.
fn random_target(rule: Rule, s: Size, seed: usize) -> [u8; CELLS] {
    let board = random_cells(s, seed);
    match pseudo_random::below(8, seed, 200000) {
        0..=4 => stepped(rule, s, &board),
        5 => {
            let mut target = stepped(rule, s, &board);
            let place = pseudo_random::below(s.cells, seed, 200001);
            let other = if plain::at(&target, place) == 0 { 1 } else { 0 };
            put(&mut target, place, other);
            target
        }
        _ => board,
    }
}

// Pseudo-random cells, few or many of them live by the seed.
fn random_cells(s: Size, seed: usize) -> [u8; CELLS] {
    let most = pseudo_random::below(6, seed, 200002).wrapping_add(1);
    let mut cells = [0; CELLS];
    for k in 0..s.cells {
        let x = pseudo_random::below(8, seed, k.wrapping_add(200003));
        put(&mut cells, k, if x < most { 1 } else { 0 });
    }
    cells
}

// The cells that a board steps to, without the ring's.
fn stepped(rule: Rule, s: Size, board: &[u8]) -> [u8; CELLS] {
    let mut cells = [0; CELLS];
    if s.w == 0 {
        return cells;
    }
    for k in 0..s.cells {
        let r = k / s.w;
        let row = |r: usize| plain::row_of(board, s.w, s.h, r);
        let rows = [row(r), row(r.wrapping_add(1)), row(r.wrapping_add(2))];
        let column = (s.w - k % s.w) % 64;
        put(
            &mut cells,
            k,
            (plain::next(rule, rows, column as u32) % 2) as u8,
        );
    }
    cells
}

// A byte of 2 or more among a target's, or two of them, or three of 2 in a line along an edge, which would be an edge three of givens.
pub(crate) fn put_bad(target: &mut [u8], s: Size, seed: usize) {
    let place = pseudo_random::below(s.cells, seed, 210000);
    match pseudo_random::below(4, seed, 210001) {
        0 => put_edge(target, s),
        1 => {
            put(target, place, 3);
            put(target, pseudo_random::below(s.cells, seed, 210002), 2);
        }
        2 => put(target, place, 255),
        _ => put(target, place, 2),
    }
}

// Three bytes of 2 from the first cell on, along row 1 or column 1.
pub(crate) fn put_edge(cells: &mut [u8], s: Size) {
    let step = if s.w < 3 { s.w } else { 1 };
    put(cells, 0, 2);
    put(cells, step, 2);
    put(cells, step.wrapping_mul(2), 2);
}

// The place of the first byte of 2 or more.
pub(crate) fn first_bad(target: &[u8], cells: usize) -> Option<usize> {
    (0..cells).find(|k| 1 < plain::at(target, *k))
}
