// Grids of givens, what keeps them, and their score.
use crate::cells;
use crate::cells::Cells;

// The grids of a group, by their numbers from 0.
#[derive(Clone, Copy)]
pub enum Group {
    // Every grid of a size.
    Every { w: usize, h: usize },
    // Pseudo-random marks, in all sizes up to 5 by 5; in a few larger ones; in one column or row of ten.
    UpToFive,
    Larger,
    Lines,
}

// Grid k of a group.
pub fn grid(group: Group, k: usize) -> Cells {
    match group {
        Group::Every { w, h } => digits(w, h, k),
        Group::UpToFive => random_marks(k % 5 + 1, k / 5 % 5 + 1, k / 25 % 4, k),
        Group::Larger => larger(k),
        Group::Lines => line(k),
    }
}

fn larger(k: usize) -> Cells {
    let density = k / 4 % 4;
    match k % 4 {
        0 => random_marks(6, 3, density, k),
        1 => random_marks(3, 6, density, k),
        2 => random_marks(7, 4, density, k),
        _ => random_marks(4, 7, density, k),
    }
}

fn line(k: usize) -> Cells {
    let density = k / 2 % 4;
    let seed = k.wrapping_add(20);
    if k % 2 == 0 {
        random_marks(1, 10, density, seed)
    } else {
        random_marks(10, 1, density, seed)
    }
}

// The marks are the digits of a number to base 3.
fn digits(w: usize, h: usize, number: usize) -> Cells {
    let mut next = cells::blank(w, h);
    let mut rest = number;
    for mark in next.at.iter_mut().take(cells::count(w, h)) {
        *mark = (rest % 3) as u8;
        rest = rest / 3;
    }
    next
}

// Pseudo-random marks, of a density.
fn random_marks(w: usize, h: usize, density: usize, seed: usize) -> Cells {
    let mut next = cells::blank(w, h);
    for (k, mark) in next.at.iter_mut().take(cells::count(w, h)).enumerate() {
        *mark = random_mark(density, pseudo_random::below(16, seed, k));
    }
    next
}

// Most cells are free; a third is given; many are given live; most are given dead.
fn random_mark(density: usize, x: usize) -> u8 {
    match density {
        0 => mark(x, 1, 2),
        1 => mark(x, 2, 5),
        2 => mark(x, 6, 8),
        _ => mark(x, 1, 11),
    }
}

// By a number below 16: so many of them for a live cell, and then up to so many for a given one.
fn mark(x: usize, live: usize, given: usize) -> u8 {
    if x < live {
        return 2;
    }
    if x < given { 1 } else { 0 }
}

// Whether a board keeps the givens, and has a score.
pub fn is_filled_in(givens: Cells, board: Cells, score: usize) -> bool {
    let is_size = givens.w == board.w && givens.h == board.h;
    is_size && keeps(givens, board) && live_free(givens, board) == score
}

fn keeps(givens: Cells, board: Cells) -> bool {
    let mut pairs = givens.at.iter().zip(board.at.iter());
    pairs.all(|(mark, state)| keeps_mark(*mark, *state))
}

fn keeps_mark(mark: u8, state: u8) -> bool {
    match mark {
        0 => true,
        1 => state == 0,
        _ => state == 1,
    }
}

// The live cells that are free.
fn live_free(givens: Cells, board: Cells) -> usize {
    let pairs = givens.at.iter().zip(board.at.iter());
    pairs
        .filter(|(mark, state)| **mark == 0 && **state == 1)
        .count()
}
