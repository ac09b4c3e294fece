// Working calls on jobs of mirror boards, and their numbers. A row of width 4 is held as its left half, one of 4, so a layer has 16 entries.
use crate::jobs::Grid;
use crate::workings::lend;
use crate::{jobs, workings};
use job::Job;
use job_kind::Kind;

// Calls on a grid of 4 by 2, which needs 32 entries, each of which breaks the rule that it names and those checked after it.
pub fn order() {
    let job = Grid::new(Kind::Mirror, 4, 2).start();
    let misfit = Grid::new(Kind::Mirror, 4, 2).filling(32, [0, 0, 0]);
    lend(Grid::new(Kind::Mirror, 3, 2).start(), 31, 7, 9).work(
        "work, mirror boards, width 3, and all below",
        &[2, 2, 2, 0, 3, 0, 0],
    );
    lend(Grid::new(Kind::Mirror, 22, 2).start(), 31, 7, 9).work(
        "work, mirror boards, width 22, and all below",
        &[2, 2, 2, 0, 3, 0, 0],
    );
    lend(misfit, 31, 7, 9).work(
        "work, mirror boards, unit 32 in filling, and all below",
        &[2, 2, 2, 0, 3, 0, 0],
    );
    lend(job, 31, 7, 9).work(
        "work, mirror boards, 7 givens of 8, and all below",
        &[2, 2, 2, 0, 3, 0, 0],
    );
    lend(job, 31, 7, 9).work(
        "work, mirror boards, a mark 3, and all below",
        &[2, 2, 2, 0, 3, 0, 0, 0],
    );
    lend(job, 31, 7, 9).work(
        "work, mirror boards, row 1 given live but its last, and all below",
        &[2, 2, 2, 0, 0, 0, 0, 0],
    );
    lend(job, 31, 7, 9).work(
        "work, mirror boards, the second of row 2 dead, its reflection free, and all below",
        &[2, 1, 1, 2, 0, 1, 0, 0],
    );
    lend(job, 31, 7, 9).work("work, mirror boards, 7 cells of 8, and 31 entries", &[0; 8]);
}

// On that grid again.
pub fn memory() {
    let job = Grid::new(Kind::Mirror, 4, 2).start();
    lend(job, 31, 9, 9).work("work, mirror boards, 9 cells of 8, and 31 entries", &[0; 8]);
    lend(job, 31, 8, 9).work("work, mirror boards, 31 entries of 32", &[0; 8]);
    lend(job, 32, 8, 9).work(
        "work, mirror boards, the first dead, its reflection free, 32 entries",
        &[1, 0, 0, 0, 0, 0, 0, 0],
    );
}

// Calls that pass, with more entries lent than are needed.
pub fn passes() {
    let job = Grid::new(Kind::Mirror, 4, 2).start();
    let free = [0; 8];
    let none = [2, 1, 1, 2, 0, 0, 0, 0];
    lend(job, 40, 8, 0).work("work, mirror boards, allowance 0", &free);
    lend(job, 40, 8, 9).work("work, mirror boards, allowance 9", &free);
    lend(job, 40, 8, 33).work("work, mirror boards, allowance 33", &free);
    lend(job, 40, 8, 34).work("work, mirror boards, allowance 34", &free);
    lend(job, 40, 8, 32).work("work, mirror boards, no board, allowance 32", &none);
    lend(job, 40, 8, 33).work("work, mirror boards, no board, allowance 33", &none);
}

// Calls of one unit that chooses row 2 of 4 by 3 over a table whose entries are none but that of row 2 over row 3, both held as 1: 1,200 counts and
// 1,201 does not.
pub fn spoiled() {
    choose("spoiled table, mirror boards, 1200", 1200);
    choose("spoiled table, mirror boards, 1201", 1201);
}

fn choose(name: &str, entry: u16) {
    let mut table = [65535u16; 48];
    table[21] = entry;
    let job = Grid::new(Kind::Mirror, 4, 3).choosing(49, [0, 1, 2]);
    workings::choose(name, job, &[0; 12], &mut table);
}

// Numbers of each kind, and of none, resumed as jobs of mirror boards; and those of mirror boards as each other kind.
pub fn kinds() {
    Grid::new(Kind::Mirror, 4, 3).resume_kinds();
}

pub fn widths() {
    for w in [0, 1, 2, 3, 12, 19, 20, 21, 22] {
        Grid::new(Kind::Mirror, w, 3).resume(0, 0, [0, 0, 0]);
    }
    Grid::new(Kind::Mirror, 4, 0).resume(0, 0, [0, 0, 0]);
    Grid::new(Kind::Mirror, 4, 61).resume(0, 0, [0, 0, 0]);
}

// Units about the length of 4 by 3.
pub fn lengths() {
    Grid::new(Kind::Mirror, 4, 3).resume_lengths();
}

pub fn rows() {
    Grid::new(Kind::Mirror, 4, 3).resume_rows();
}

// A grid of 20 by 60, whose table has 62,914,560 entries, at its ends.
pub fn limits() {
    Grid::new(Kind::Mirror, 20, 60).resume_limits();
}

// Pauses of jobs of 4 by 3 in each stage, and with numbers that do not fit.
pub fn pauses() {
    Grid::new(Kind::Mirror, 4, 3).pause_stages();
    for w in [3, 20, 22] {
        jobs::pause(Grid::new(Kind::Mirror, w, 3).start());
    }
}
