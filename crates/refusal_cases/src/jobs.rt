// A kind of job on a size of grid, under Conway's rule: its jobs, and the numbers of those that are paused.
use board::Refusal;
use job::{Checkpoint, Job, Stage};
use job_kind::Kind;
use std::fmt::Write;

#[derive(Clone, Copy)]
pub struct Grid {
    pub kind: Kind,
    pub w: usize,
    pub h: usize,
}

impl Grid {
    pub fn new(kind: Kind, w: usize, h: usize) -> Grid {
        Grid { kind, w, h }
    }

    fn at(self, units: usize, stage: Stage) -> Job {
        Job {
            kind: self.kind,
            rule: rule::conway(),
            width: self.w,
            height: self.h,
            units,
            stage,
        }
    }

    // A job at unit 0.
    pub fn start(self) -> Job {
        self.filling(0, [0, 0, 0])
    }

    // Jobs in a stage, by a variant each, with the row above, the last row and the live cells.
    pub fn filling(self, units: usize, rows: [usize; 3]) -> Job {
        let [above, last, live] = rows;
        self.at(units, Stage::Filling { above, last, live })
    }

    pub fn choosing(self, units: usize, rows: [usize; 3]) -> Job {
        let [above, last, live] = rows;
        self.at(units, Stage::Choosing { above, last, live })
    }

    // A job that ended with rows 3 and 3.
    pub fn finished(self, units: usize, score: usize) -> Job {
        let (above, last) = (3, 3);
        self.at(units, Stage::Finished { above, last, score })
    }

    pub fn infeasible(self, units: usize) -> Job {
        self.at(units, Stage::Infeasible)
    }

    // Numbers of a paused job, with the row above, the last row and the live cells.
    pub fn paused(self, units: usize, mark: usize, rows: [usize; 3]) -> Checkpoint {
        let [above, last, live] = rows;
        Checkpoint {
            width: self.w,
            height: self.h,
            units,
            above,
            last,
            live,
            mark,
            births: 8,
            survivals: 12,
            kind: self.kind.number(),
        }
    }

    // Resumes such numbers as the kind that they are of.
    pub fn resume(self, units: usize, mark: usize, rows: [usize; 3]) {
        resume(self.kind, self.paused(units, mark, rows));
    }

    // The same without rows, with each mark and one past the last.
    pub fn resume_marks(self, units: usize) {
        for mark in 0..4 {
            self.resume(units, mark, [0, 0, 0]);
        }
    }

    // Units about the lengths of a grid of three rows of two digits, 51, and 49 where there is no board, with each mark.
    pub fn resume_lengths(self) {
        for units in 48..53 {
            self.resume_marks(units);
        }
    }

    // On such a grid row above, last row and live cells with no row, one, two and three chosen.
    pub fn resume_rows(self) {
        let w = self.w % 64;
        for (units, mark, rows) in [
            (48, 0, [0, 1, 0]),
            (48, 0, [1, 0, 0]),
            (48, 0, [0, 0, 1]),
            (49, 0, [0, 3, w]),
            (49, 0, [0, 4, w]),
            (49, 0, [1, 3, w]),
            (49, 0, [0, 3, w + 1]),
            (50, 0, [3, 3, 2 * w]),
            (50, 0, [4, 3, 2 * w]),
            (50, 0, [3, 4, 2 * w]),
            (50, 0, [3, 3, 2 * w + 1]),
            (51, 1, [3, 3, 3 * w]),
            (51, 1, [4, 3, 3 * w]),
            (51, 1, [3, 4, 3 * w]),
            (51, 1, [3, 3, 3 * w + 1]),
            (49, 2, [0, 1, 0]),
            (49, 2, [0, 0, 1]),
        ] {
            self.resume(units, mark, rows);
        }
    }

    // On such a grid jobs in each stage, and with numbers that do not fit.
    pub fn pause_stages(self) {
        let w = self.w % 64;
        for units in [47, 48] {
            pause(self.filling(units, [0, 0, 0]));
        }
        for (units, rows) in [
            (47, [0, 0, 0]),
            (48, [0, 0, 0]),
            (50, [3, 3, 2 * w]),
            (50, [3, 4, 2 * w]),
            (50, [3, 3, 2 * w + 1]),
        ] {
            pause(self.choosing(units, rows));
        }
        pause(self.finished(51, 3 * w));
        pause(self.finished(51, 3 * w + 1));
        pause(self.infeasible(49));
        pause(self.infeasible(51));
    }

    // Numbers at the ends of a grid of 60 rows of ten digits, whose table has 62,914,560 entries.
    pub fn resume_limits(self) {
        let live = 60 * (self.w % 64);
        for (units, mark) in [
            (62914559, 0),
            (62914561, 2),
            (62914562, 2),
            (62914619, 0),
            (62914620, 0),
        ] {
            self.resume(units, mark, [0, 0, 0]);
        }
        for rows in [
            [1023, 1023, live],
            [1024, 1023, live],
            [1023, 1024, live],
            [1023, 1023, live + 1],
        ] {
            self.resume(62914620, 1, rows);
        }
    }

    // Numbers of each kind, and of none, resumed as this one; and this one's as each other kind.
    pub fn resume_kinds(self) {
        let own = self.paused(0, 0, [0, 0, 0]);
        for kind in [0, 1, 2, 3, 4, usize::MAX] {
            resume(self.kind, Checkpoint { kind, ..own });
        }
        for kind in [
            Kind::Ordinary,
            Kind::TwoLayers,
            Kind::Mirror,
            Kind::Predecessor,
        ] {
            if kind != self.kind {
                resume(kind, own);
            }
        }
    }
}

// Resumes numbers as a kind, and prints them, and the job that they come to.
pub fn resume(kind: Kind, numbers: Checkpoint) {
    report::text("resume");
    print_numbers(numbers);
    report::text(match kind {
        Kind::Ordinary => ", as ordinary",
        Kind::TwoLayers => ", as two layers",
        Kind::Mirror => ", as mirror boards",
        Kind::Predecessor => ", as predecessor",
    });
    match numbers.resume(kind) {
        Ok(job) => {
            report::text(": passed\n");
            print_job(job);
        }
        Err(r) => report::refusal(r),
    }
}

// Pauses a job, and prints it, and its numbers.
pub fn pause(job: Job) {
    report::text("pause, ");
    print_fields(job);
    match job.pause() {
        Ok(numbers) => {
            report::text(": numbers");
            print_numbers(numbers);
            report::text("\n");
        }
        Err(r) => report::refusal(r),
    }
}

// As in crate example, which stands alone, since README.md shows it whole.
fn print_numbers(t: Checkpoint) {
    let numbers = [
        t.width,
        t.height,
        t.units,
        t.above,
        t.last,
        t.live,
        t.mark,
        t.births,
        t.survivals,
        t.kind,
    ];
    for n in numbers {
        let _ = write!(report::Output, " {n}");
    }
}

// What an opening or a resumption came to.
pub fn print_result(r: Result<Job, Refusal>) {
    match r {
        Ok(job) => {
            report::text(match job.kind {
                Kind::Ordinary => ": a job",
                Kind::TwoLayers => ": a job of two layers",
                Kind::Mirror => ": a job of mirror boards",
                Kind::Predecessor => ": a predecessor job",
            });
            report::line(" at unit ", job.units);
        }
        Err(r) => report::refusal(r),
    }
}

pub fn print_job(job: Job) {
    report::text("  ");
    print_fields(job);
    report::text("\n");
}

// A job, without the end of the line.
fn print_fields(job: Job) {
    report::text(match job.kind {
        Kind::Ordinary => "job: ",
        Kind::TwoLayers => "job of two layers: ",
        Kind::Mirror => "job of mirror boards: ",
        Kind::Predecessor => "predecessor job: ",
    });
    let _ = write!(
        report::Output,
        "{} by {}, births {}, survivals {}, unit {}",
        job.width,
        job.height,
        job.rule.births,
        job.rule.survivals,
        job.units
    );
    match job.stage {
        // rows and live cells only where there are any, as in a job of two layers that fills again
        Stage::Filling {
            above: 0,
            last: 0,
            live: 0,
        } => report::text(", filling"),
        Stage::Filling { above, last, live } => {
            print_rows(", filling below ", above, last, live);
        }
        Stage::Choosing { above, last, live } => {
            print_rows(", choosing below ", above, last, live);
        }
        Stage::Finished { above, last, score } => {
            print_rows(", finished with ", above, last, score);
        }
        Stage::Infeasible => report::text(", none"),
    }
}

fn print_rows(name: &str, above: usize, last: usize, live: usize) {
    let _ = write!(report::Output, "{name}{above} and {last}, live {live}");
}
