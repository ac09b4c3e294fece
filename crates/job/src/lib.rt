// A job of the solver as numbers: opened, paused into ten numbers and resumed from them, and handed on from unit to unit. The work that a unit
// does on the table and the board is crate `solver`'s.
#![tactic(auto)]

use board::{ChosenRow, Refusal};
use job_kind::Kind;
use rule::Rule;

mod numbers;
mod shape;
mod units;

ghost use Rattle.std.specs.Prelude.{◌≡◌, option_map};
ghost use Rattle.job.specs.Jobs.{numbers_of, task_due, task_of, after_unit, after_fills};
ghost use Rattle.job.specs.Calls.{Opens, Pauses, Resumes};

use shape::Shape;
use units::Due;

// What a job does next, with that stage's numbers: the last two rows chosen, and the live cells so far that were free, with a target all live cells.
#[derive(Clone, Copy, Debug, PartialEq, Eq)]
pub enum Stage {
    Filling {
        above: usize,
        last: usize,
        live: usize,
    },
    Choosing {
        above: usize,
        last: usize,
        live: usize,
    },
    Finished {
        above: usize,
        last: usize,
        score: usize,
    },
    // No still board keeps the givens, in a mirror job no mirror board; or no board steps to the target.
    Infeasible,
}

// A job: its kind, its rule, its grid's width and height, the units done, and its stage.
#[derive(Clone, Copy, Debug, PartialEq, Eq)]
pub struct Job {
    pub kind: Kind,
    pub rule: Rule,
    pub width: usize,
    pub height: usize,
    pub units: usize,
    pub stage: Stage,
}

// The ten numbers of a paused job: 0 running, 1 finished, 2 infeasible is its mark, then its rule, and its kind's number. Numbers and no enums, since
// document 01 has numbers, of which a resumption may be handed any.
#[derive(Clone, Copy, Debug, PartialEq, Eq)]
pub struct Checkpoint {
    pub width: usize,
    pub height: usize,
    pub units: usize,
    pub above: usize,
    pub last: usize,
    pub live: usize,
    pub mark: usize,
    pub births: usize,
    pub survivals: usize,
    pub kind: usize,
}

// What the next unit of a job is to do.
#[derive(Clone, Copy, Debug, PartialEq, Eq)]
pub enum Task {
    // Fill an entry of the layer that starts at `target` and has `after` rows after it, by the layer that starts at `source`.
    Fill {
        after: usize,
        source: usize,
        target: usize,
        entry: usize,
    },
    // Choose the row that has `row` rows above it, by its layer, which starts at `source`.
    Choose {
        row: usize,
        source: usize,
    },
}

// A job of a kind at unit 0 under a rule for a grid of givens: w × h marks, 0 free, 1 given dead, 2 given live; or for a target in their place: w × h
// cells, 0 dead, 1 live. Refusals 1, 2, 13, 3, 4, 14, 15; of a target 1, 2, 13, 3, 4.
#[tactic(auto, unfolding(crate::specs::Jobs::open_rule))]
pub fn open(
    kind: Kind,
    rule: Rule,
    width: usize,
    height: usize,
    givens: &[u8],
) -> Result<Job, Refusal>
    ensures { Opens kind rule width height givens.now result }
{
    rule::check(kind.halves(), rule, width, height)?;
    job_kind::check_read(kind, rule, width, height, givens)?;
    Ok(Job {
        kind,
        rule,
        width,
        height,
        units: 0,
        stage: Stage::Filling {
            above: 0,
            last: 0,
            live: 0,
        },
    })
}

impl Checkpoint {
    // The job of these numbers, resumed as a kind. Refusal 7, also for numbers of another kind.
    #[tactic(auto, unfolding(crate::specs::Jobs::resume_rule), using(crate::proofs::Checkpoints::numbers_back))]
    pub fn resume(self, kind: Kind) -> Result<Job, Refusal>
        ensures { Resumes kind self result }
    {
        if !numbers::checkpoint_fits(kind, self) {
            return Err(Refusal::Checkpoint);
        }
        let shape = Shape {
            kind,
            width: self.width,
            height: self.height,
        };
        Ok(numbers::job_of(shape, self))
    }
}

impl Job {
    // The numbers of this job. Refusal 7.
    #[tactic(auto, unfolding(crate::specs::Jobs::pause_rule))]
    pub fn pause(self) -> Result<Checkpoint, Refusal>
        ensures { Pauses self result }
    {
        if !numbers::job_fits(self) {
            return Err(Refusal::Checkpoint);
        }
        Ok(numbers::numbers_of(self))
    }

    // The ten numbers of this job, whether they fit or not.
    pub fn numbers(self) -> Checkpoint
        ensures { result ≡ numbers_of self }
    {
        numbers::numbers_of(self)
    }

    // What the next unit is to do: none where the job has ended, its units are spent, or its width or height is past its limit.
    #[tactic(auto, using(crate::proofs::Next::due_never, crate::proofs::Next::due_while))]
    pub fn task(self) -> Option<Task>
        ensures { option_map task_of result ≡ task_due self }
    {
        if !units::is_running(self) {
            return None;
        }
        let shape = Shape {
            kind: self.kind,
            width: self.width,
            height: self.height,
        };
        shape.task_at(self.units)
    }

    // The job after its unit: by its task, and where that chooses a row by what is chosen. Without a task it stays as it is.
    pub fn after(self, chosen: Option<ChosenRow>) -> Job
        ensures { result ≡ after_unit self chosen }
    {
        if !units::is_running(self) {
            return self;
        }
        let shape = Shape {
            kind: self.kind,
            width: self.width,
            height: self.height,
        };
        let x = shape.round_of(self.units);
        if x.left != 0 {
            return units::after_entries(self, 1, x.left != 1);
        }
        if x.rows < self.height {
            let due = Due {
                job: self,
                rows: x.rows,
            };
            return due.after(chosen);
        }
        self
    }

    // The job after so many entries. Where it doesn't run, or fewer are to be filled before the next row, it stays as it is.
    pub fn after_entries(self, count: usize) -> Job
        ensures { result ≡ after_fills count self }
    {
        if !units::is_running(self) {
            return self;
        }
        let shape = Shape {
            kind: self.kind,
            width: self.width,
            height: self.height,
        };
        let x = shape.round_of(self.units);
        if x.left < count {
            return self;
        }
        units::after_entries(self, count, x.left != count)
    }
}
