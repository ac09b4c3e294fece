// Working calls on predecessor jobs, and their numbers.
use crate::jobs::Grid;
use crate::workings::lend;
use crate::{jobs, ordinary, workings};
use job::{Checkpoint, Job};
use job_kind::Kind;

// Calls on a target of 3 by 2, which needs 128 entries, each of which breaks the rule that it names and those checked after it. Three live cells
// along an edge, and three bytes of 2, are no edge three here.
pub fn order() {
    let job = Grid::new(Kind::Predecessor, 3, 2).start();
    let misfit = Grid::new(Kind::Predecessor, 3, 2).filling(128, [0, 0, 0]);
    lend(Grid::new(Kind::Predecessor, 11, 2).start(), 127, 5, 9).work(
        "work, predecessor, width 11, and all below",
        &[1, 1, 1, 0, 2],
    );
    lend(misfit, 127, 5, 9).work(
        "work, predecessor, unit 128 in filling, and all below",
        &[1, 1, 1, 0, 2],
    );
    lend(ordinary::with_births(job, 9), 127, 5, 9).work(
        "work, predecessor, births 9, and all below",
        &[1, 1, 1, 0, 2],
    );
    lend(job, 127, 5, 9).work(
        "work, predecessor, 5 cells of the target's 6, and all below",
        &[1, 1, 1, 0, 2],
    );
    lend(job, 127, 5, 9).work(
        "work, predecessor, 7 cells of the target's 6, and all below",
        &[1, 1, 1, 0, 2, 0, 0],
    );
    lend(job, 127, 5, 9).work(
        "work, predecessor, bytes 2 and 3, and all below",
        &[1, 1, 1, 0, 2, 3],
    );
    lend(job, 127, 5, 9).work(
        "work, predecessor, row 1 of 2, and all below",
        &[2, 2, 2, 0, 0, 0],
    );
    lend(job, 127, 5, 9).work(
        "work, predecessor, row 1 live, 5 cells of 6, and 127 entries",
        &[1, 1, 1, 0, 0, 0],
    );
}

// On a target of that size again.
pub fn memory() {
    let job = Grid::new(Kind::Predecessor, 3, 2).start();
    let target = [1, 1, 1, 0, 0, 0];
    lend(job, 127, 7, 9).work("work, predecessor, 7 cells of 6, and 127 entries", &target);
    lend(job, 127, 6, 9).work("work, predecessor, 127 entries of 128", &target);
    lend(job, 128, 6, 9).work(
        "work, predecessor, a byte 2, 128 entries",
        &[1, 2, 1, 0, 0, 0],
    );
}

// Calls that pass, with more entries lent than are needed: on the block in columns 2 and 3, which is lopsided, and on three live cells along an edge,
// which no board steps to.
pub fn passes() {
    let job = Grid::new(Kind::Predecessor, 3, 2).start();
    let block = [0, 1, 1, 0, 1, 1];
    let none = [1, 1, 1, 0, 0, 0];
    lend(job, 140, 6, 0).work("work, predecessor, allowance 0", &block);
    lend(job, 140, 6, 9).work("work, predecessor, allowance 9", &block);
    lend(job, 140, 6, 128).work("work, predecessor, allowance 128", &block);
    lend(job, 140, 6, 129).work("work, predecessor, allowance 129", &block);
    lend(job, 140, 6, 130).work("work, predecessor, allowance 130", &block);
    lend(job, 140, 6, 128).work("work, predecessor, no board, allowance 128", &none);
    lend(job, 140, 6, 129).work("work, predecessor, no board, allowance 129", &none);
}

// Calls of one unit that chooses row 2 of 2 by 3 below row 3, which has to stay 3: rows 1, 2 and 3 can stand there. The entries are none but
// (2, 3, 1): 600 counts and 601 does not.
pub fn spoiled() {
    choose("spoiled table, predecessor, 600", [600, 65535, 65535]);
    choose("spoiled table, predecessor, 601", [601, 65535, 65535]);
    choose("spoiled table, predecessor, none", [65535, 65535, 65535]);
}

// The same with entries (2, 3, 1), (2, 3, 2) and (2, 3, 3): the least sum of a row's live cells and its entry, among equals the smallest row.
pub fn choices() {
    choose("choice, predecessor, entries 5, 5, 4", [5, 5, 4]);
    choose("choice, predecessor, entries 5, 5, 3", [5, 5, 3]);
    choose("choice, predecessor, entries 5, 4, 4", [5, 4, 4]);
    choose(
        "choice, predecessor, entries 601, 600, 599",
        [601, 600, 599],
    );
    choose(
        "choice, predecessor, entries 601, 601, 600",
        [601, 601, 600],
    );
}

fn choose(name: &str, entries: [u16; 3]) {
    let [first, second, third] = entries;
    let mut table = [65535u16; 48];
    table[29] = first;
    table[30] = second;
    table[31] = third;
    let job = Grid::new(Kind::Predecessor, 2, 3).choosing(49, [0, 3, 2]);
    workings::choose(name, job, &[1, 1, 0, 0, 0, 0], &mut table);
}

// Numbers of each kind, and of none, resumed as predecessor jobs; and those of a predecessor job as each other kind.
pub fn kinds() {
    Grid::new(Kind::Predecessor, 2, 3).resume_kinds();
}

// Widths, heights and rules.
pub fn sizes() {
    for w in [0, 1, 10, 11, 12] {
        Grid::new(Kind::Predecessor, w, 3).resume(0, 0, [0, 0, 0]);
    }
    Grid::new(Kind::Predecessor, 2, 0).resume(0, 0, [0, 0, 0]);
    Grid::new(Kind::Predecessor, 2, 61).resume(0, 0, [0, 0, 0]);
    for (births, survivals) in [(9, 12), (512, 12), (8, 512), (510, 511)] {
        let numbers = Checkpoint {
            births,
            survivals,
            ..Grid::new(Kind::Predecessor, 2, 3).paused(0, 0, [0, 0, 0])
        };
        jobs::resume(Kind::Predecessor, numbers);
    }
}

// Units about the length of 2 by 3.
pub fn lengths() {
    Grid::new(Kind::Predecessor, 2, 3).resume_lengths();
}

pub fn rows() {
    Grid::new(Kind::Predecessor, 2, 3).resume(47, 0, [0, 0, 1]);
    Grid::new(Kind::Predecessor, 2, 3).resume_rows();
}

// A target of 10 by 60, whose table has 62,914,560 entries, at its ends.
pub fn limits() {
    Grid::new(Kind::Predecessor, 10, 60).resume_limits();
}

// Pauses of jobs of 2 by 3 in each stage, and with numbers that do not fit.
pub fn pauses() {
    Grid::new(Kind::Predecessor, 2, 3).pause_stages();
    for w in [10, 11] {
        jobs::pause(Grid::new(Kind::Predecessor, w, 3).start());
    }
}
