// Resumptions and pauses of an ordinary job of 2 by 2, whose table has 32 entries.
use crate::jobs;
use crate::jobs::Grid;
use job::{Checkpoint, Job};
use job_kind::Kind;

const GRID: Grid = Grid {
    kind: Kind::Ordinary,
    w: 2,
    h: 2,
};

pub fn resumptions() {
    resume("resume, mark 3", GRID.paused(0, 3, [0, 0, 0]));
    resume("resume, row 4 of width 2", GRID.paused(34, 0, [0, 4, 0]));
    let numbers = GRID.paused(0, 0, [0, 0, 0]);
    resume(
        "resume, births 9",
        Checkpoint {
            births: 9,
            ..numbers
        },
    );
    resume(
        "resume, finished at unit 33 of 34",
        GRID.paused(33, 1, [0, 0, 0]),
    );
    resume("resume, finished at unit 34", GRID.paused(34, 1, [0, 0, 0]));
    resume("resume, none at unit 33", GRID.paused(33, 2, [0, 0, 0]));
}

fn resume(name: &str, numbers: Checkpoint) {
    report::text(name);
    jobs::print_result(numbers.resume(Kind::Ordinary));
}

pub fn pauses() {
    pause("pause, width 11", wide(11).start());
    pause(
        "pause, unit 32 of 32 in filling",
        GRID.filling(32, [0, 0, 0]),
    );
    pause("pause, births 9", with_births(GRID.start(), 9));
    pause("pause, unit 31 in filling", GRID.filling(31, [0, 0, 0]));
}

fn pause(name: &str, job: Job) {
    report::text(name);
    match job.pause() {
        Ok(numbers) => report::line(": numbers at unit ", numbers.units),
        Err(r) => report::refusal(r),
    }
}

// A grid of another width, two high.
pub fn wide(w: usize) -> Grid {
    Grid { w, ..GRID }
}

// The job with other births.
pub fn with_births(job: Job, births: usize) -> Job {
    let mut next = job;
    next.rule.births = births;
    next
}
