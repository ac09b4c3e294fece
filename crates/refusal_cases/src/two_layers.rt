// Working calls on jobs of two layers, which need 2 × 4^w entries whatever their height.
use crate::jobs::Grid;
use crate::rounds::ROUNDS;
use crate::workings::lend;
use job::Job;
use job_kind::Kind;

// Calls on a grid of 3 by 2, each of which breaks the rule that it names and those checked after it.
pub fn order() {
    let job = Grid::new(Kind::TwoLayers, 3, 2).start();
    let misfit = Grid::new(Kind::TwoLayers, 3, 2).choosing(0, [0, 0, 0]);
    lend(misfit, 127, 5, 9).work(
        "work, two layers, choosing at unit 0, and all below",
        &[2, 2, 2, 0, 3],
    );
    lend(job, 127, 5, 9).work(
        "work, two layers, 5 givens of 6, and all below",
        &[2, 2, 2, 0, 3],
    );
    lend(job, 127, 5, 9).work(
        "work, two layers, a mark 3, and all below",
        &[2, 2, 2, 0, 3, 0],
    );
    lend(job, 127, 5, 9).work(
        "work, two layers, row 1 given live, and all below",
        &[2, 2, 2, 0, 0, 0],
    );
    lend(job, 127, 5, 9).work("work, two layers, 5 cells of 6, and 127 entries", &[0; 6]);
}

// On that grid again.
pub fn memory() {
    let grid = Grid::new(Kind::TwoLayers, 3, 2);
    lend(grid.start(), 127, 7, 9).work("work, two layers, 7 cells of 6, and 127 entries", &[0; 6]);
    lend(grid.start(), 127, 6, 9).work("work, two layers, 127 entries of 128", &[0; 6]);
    lend(grid.start(), 128, 6, 9).work("work, two layers, 128 entries", &[0; 6]);
}

// On a grid of 2 by 1, where an ordinary job needs fewer entries.
pub fn low() {
    let ordinary = Grid::new(Kind::Ordinary, 2, 1);
    let two = Grid::new(Kind::TwoLayers, 2, 1);
    lend(ordinary.start(), 15, 2, 1000).work("work, 2 by 1, 15 entries of 16", &[0; 2]);
    lend(ordinary.start(), 16, 2, 1000).work("work, 2 by 1, 16 entries", &[0; 2]);
    lend(two.start(), 16, 2, 1000).work("work, two layers, 2 by 1, 16 entries of 32", &[0; 2]);
    lend(two.start(), 31, 2, 1000).work("work, two layers, 2 by 1, 31 entries of 32", &[0; 2]);
    lend(two.start(), 32, 2, 1000).work("work, two layers, 2 by 1, 32 entries", &[0; 2]);
}

// On a grid of 2 by 3, where an ordinary job needs more.
pub fn high() {
    let ordinary = Grid::new(Kind::Ordinary, 2, 3);
    lend(ordinary.start(), 32, 6, 1000).work("work, 2 by 3, 32 entries of 48", &[0; 6]);
    lend(ordinary.start(), 47, 6, 1000).work("work, 2 by 3, 47 entries of 48", &[0; 6]);
    lend(ordinary.start(), 48, 6, 1000).work("work, 2 by 3, 48 entries", &[0; 6]);
    lend(ROUNDS.start(), 31, 6, 1000).work("work, two layers, 2 by 3, 31 entries of 32", &[0; 6]);
    lend(ROUNDS.start(), 32, 6, 1000).work("work, two layers, 2 by 3, 32 entries", &[0; 6]);
    lend(ROUNDS.start(), 48, 6, 1000).work("work, two layers, 2 by 3, 48 entries", &[0; 6]);
}

// On a grid of 1 by 60.
pub fn highest() {
    let ordinary = Grid::new(Kind::Ordinary, 1, 60);
    let two = Grid::new(Kind::TwoLayers, 1, 60);
    lend(ordinary.start(), 239, 60, 9).work("work, 1 by 60, 239 entries of 240", &[0; 60]);
    lend(ordinary.start(), 240, 60, 9).work("work, 1 by 60, 240 entries", &[0; 60]);
    lend(two.start(), 7, 60, 9).work("work, two layers, 1 by 60, 7 entries of 8", &[0; 60]);
    lend(two.start(), 8, 60, 9).work("work, two layers, 1 by 60, 8 entries", &[0; 60]);
}

// On a grid of 2 by 2, where both kinds need as many.
pub fn square() {
    let job = Grid::new(Kind::TwoLayers, 2, 2).start();
    lend(job, 31, 4, 50).work("work, two layers, 31 entries of 32", &[0; 4]);
    lend(job, 32, 4, 50).work("work, two layers, 32 entries", &[0; 4]);
}

// On that grid, with more entries lent than are needed: before and after its rows, and without a board.
pub fn passes() {
    let job = Grid::new(Kind::TwoLayers, 2, 2).start();
    let free = [0; 4];
    let none = [2, 1, 0, 0];
    lend(job, 40, 4, 0).work("work, two layers, allowance 0", &free);
    lend(job, 40, 4, 32).work("work, two layers, allowance 32", &free);
    lend(job, 40, 4, 33).work("work, two layers, allowance 33", &free);
    lend(job, 40, 4, 49).work("work, two layers, allowance 49", &free);
    lend(job, 40, 4, 50).work("work, two layers, allowance 50", &free);
    lend(job, 40, 4, 32).work("work, two layers, no board, allowance 32", &none);
    lend(job, 40, 4, 33).work("work, two layers, no board, allowance 33", &none);
    lend(job, 40, 4, 50).work("work, two layers, no board, allowance 50", &none);
}

// Calls on jobs of 2 by 3 that have ended.
pub fn ended() {
    let job = ROUNDS.finished(99, 4);
    work_at(job, 9);
    lend(job, 31, 6, 9).work("work, two layers, 31 entries of 32", &[0; 6]);
    work_at(ROUNDS.infeasible(49), 9);
    work_at(ROUNDS.infeasible(99), 9);
}

// Calls on jobs of that grid in a stage that fits their units, and in one that does not.
pub fn stages() {
    work_at(ROUNDS.choosing(47, [0, 0, 0]), 1);
    work_at(ROUNDS.filling(48, [0, 0, 0]), 1);
    work_at(ROUNDS.choosing(49, [0, 3, 2]), 1);
    work_at(ROUNDS.filling(49, [0, 3, 2]), 1);
    work_at(ROUNDS.filling(81, [0, 3, 2]), 1);
    work_at(ROUNDS.choosing(82, [3, 3, 4]), 1);
    work_at(ROUNDS.filling(97, [3, 3, 4]), 1);
    work_at(ROUNDS.filling(98, [3, 3, 4]), 1);
}

// Calls on jobs of that grid whose rows or live cells do not fit the rows chosen.
pub fn rows() {
    work_at(ROUNDS.filling(47, [0, 1, 0]), 1);
    work_at(ROUNDS.filling(49, [1, 3, 2]), 1);
    work_at(ROUNDS.filling(49, [0, 3, 3]), 1);
    work_at(ROUNDS.filling(82, [3, 3, 5]), 1);
    work_at(ROUNDS.finished(99, 7), 1);
}

fn work_at(job: Job, allowance: u32) {
    lend(job, 32, 6, allowance).work("work, two layers, 2 by 3", &[0; 6]);
}
