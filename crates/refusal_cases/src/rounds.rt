// Numbers of a job of two layers on a grid of 2 by 3, a layer of which has 16 entries. It fills at units 0 to 47 and chooses row 1 at 48, fills
// again at 49 to 80 and chooses row 2 at 81, fills again at 82 to 97 and chooses row 3 at 98: 99 units, or 49 where there is no board.
use crate::jobs;
use crate::jobs::Grid;
use job::{Checkpoint, Job};
use job_kind::Kind;

pub const ROUNDS: Grid = Grid {
    kind: Kind::TwoLayers,
    w: 2,
    h: 3,
};

// Numbers of each kind, and of none, resumed as either.
pub fn kinds() {
    for kind in [0, 1, 2, 3, 4, usize::MAX] {
        resume_as_both(0, kind);
    }
    resume_as_both(49, 0);
    resume_as_both(49, 1);
}

fn resume_as_both(units: usize, kind: usize) {
    let numbers = Checkpoint {
        kind,
        ..ROUNDS.paused(units, 0, [0, 0, 0])
    };
    jobs::resume(Kind::Ordinary, numbers);
    jobs::resume(Kind::TwoLayers, numbers);
}

// Units about the length, about that of an ordinary job, 51, and about that without a board, with each mark. On a grid of 2 by 1 all three are 17.
pub fn lengths() {
    for units in [48, 49, 50, 51, 98, 99, 100, usize::MAX] {
        ROUNDS.resume_marks(units);
    }
    for units in 16..19 {
        Grid { h: 1, ..ROUNDS }.resume_marks(units);
    }
}

// Row above, last row and live cells, in the first and last units of each stage.
pub fn rows() {
    for (units, rows) in [
        (47, [0, 1, 0]),
        (47, [1, 0, 0]),
        (47, [0, 0, 1]),
        (48, [0, 1, 0]),
        (48, [1, 0, 0]),
        (48, [0, 0, 1]),
        (49, [0, 3, 2]),
        (49, [1, 3, 2]),
        (49, [0, 3, 3]),
        (49, [0, 4, 2]),
        (80, [0, 3, 2]),
        (80, [1, 3, 2]),
        (81, [0, 3, 2]),
        (81, [1, 3, 2]),
        (81, [0, 3, 3]),
        (82, [3, 3, 4]),
        (82, [3, 3, 5]),
        (82, [4, 3, 4]),
        (97, [3, 3, 5]),
        (98, [3, 3, 4]),
        (98, [3, 3, 5]),
        (98, [3, 4, 4]),
    ] {
        ROUNDS.resume(units, 0, rows);
    }
}

// The same in jobs that have ended: with three rows chosen, and with none.
pub fn rows_ended() {
    for rows in [[3, 3, 6], [3, 3, 7], [4, 3, 6], [3, 4, 6]] {
        ROUNDS.resume(99, 1, rows);
    }
    for rows in [[1, 0, 0], [0, 1, 0], [0, 0, 1]] {
        ROUNDS.resume(49, 2, rows);
    }
}

// Units in each stage and next to it, with the rows and live cells of a job there.
const UNITS: [(usize, [usize; 3]); 10] = [
    (0, [0, 0, 0]),
    (47, [0, 0, 0]),
    (48, [0, 0, 0]),
    (49, [0, 3, 2]),
    (80, [0, 3, 2]),
    (81, [0, 3, 2]),
    (82, [3, 3, 4]),
    (97, [3, 3, 4]),
    (98, [3, 3, 4]),
    (99, [3, 3, 4]),
];

// Pauses while filling, and at the units next to it.
pub fn fillings() {
    for (units, rows) in UNITS {
        jobs::pause(ROUNDS.filling(units, rows));
    }
    jobs::pause(ROUNDS.filling(47, [0, 1, 0]));
    jobs::pause(ROUNDS.filling(49, [1, 3, 2]));
    jobs::pause(ROUNDS.filling(49, [0, 3, 3]));
}

// Pauses while choosing, and at the units next to it.
pub fn choices() {
    for (units, rows) in UNITS {
        jobs::pause(ROUNDS.choosing(units, rows));
    }
    jobs::pause(ROUNDS.choosing(48, [0, 1, 0]));
    jobs::pause(ROUNDS.choosing(81, [1, 3, 2]));
    jobs::pause(ROUNDS.choosing(98, [3, 3, 5]));
}

// Pauses of jobs that have ended.
pub fn ends() {
    for (units, score) in [(98, 6), (99, 6), (99, 7), (100, 6), (51, 6)] {
        jobs::pause(ROUNDS.finished(units, score));
    }
    for units in [48, 49, 50, 99] {
        jobs::pause(ROUNDS.infeasible(units));
    }
}

// Pauses of ordinary jobs of that grid, which carry rows while they fill, or stand where only a job of two layers would.
pub fn ordinary() {
    let grid = Grid {
        kind: Kind::Ordinary,
        ..ROUNDS
    };
    for (units, rows) in [
        (47, [0, 0, 0]),
        (47, [1, 0, 0]),
        (47, [0, 1, 0]),
        (47, [0, 0, 1]),
        (49, [0, 3, 2]),
    ] {
        jobs::pause(grid.filling(units, rows));
    }
    jobs::pause(grid.choosing(49, [0, 3, 2]));
    jobs::pause(grid.choosing(81, [0, 3, 2]));
    jobs::pause(grid.finished(51, 6));
    jobs::pause(grid.finished(99, 6));
}
