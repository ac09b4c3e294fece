// The numbers of a job: which of them fit, and the stage that they give. An end mark is a number here, as in the definitions of crate elimination that
// the contracts name. The conversions have names and are no `From`: each says the definition of its name, and `From` would say no more.
ghost use Rattle.std.specs.Prelude.{◌≡◌, true, cond, ◌≤◌, ◌<◌};
ghost use Rattle.board.specs.Boards.{max_mirror_width, max_height, Width};
ghost use Rattle.elimination.specs.Shape.{units_fit, rows_chosen, rows_fit};
ghost use Rattle.job_kind.specs.Kinds.{halves_of, shape_of};
ghost use Rattle.job.specs.Jobs.{above_of, last_of, live_of, mark_of, rule_of, checkpoint_fits, stage_fits, job_fits, numbers_of, stage_of, job_of};
ghost use Rattle.job.specs.Inner.{RoundIs};
ghost use Rattle.job.specs.declared.Stage.{Stage};

use crate::shape::{Round, Shape};
use crate::{Checkpoint, Job, Stage};
use job_kind::Kind;
use rule::Rule;

// Whether the units, which are in round x, fit the end mark.
#[tactic(auto, unfolding(elimination::specs::Shape::units_fit), using(crate::proofs::Rounds::runs_same, crate::proofs::Rounds::ends_same, crate::proofs::Rounds::ends_not))]
fn units_fit(shape: Shape, units: usize, x: Round, mark: usize) -> bool
    requires { RoundIs shape.kind shape.width shape.height units x }
    ensures { result ≡ units_fit (shape_of shape.kind shape.width shape.height) units mark }
{
    match mark {
        0 => x.rows < shape.height,
        1 => shape.height <= x.rows && x.place == 0,
        2 => units == board::table_size(shape.row_digits(), shape.height) + 1,
        _ => false,
    }
}

// The rows chosen, where the units, which are in round x, fit the end mark; with mark 2 no row counts as chosen.
fn rows_chosen(shape: Shape, units: usize, x: Round, mark: usize) -> usize
    requires { (0 < shape.height) × RoundIs shape.kind shape.width shape.height units x
        × (units_fit (shape_of shape.kind shape.width shape.height) units mark ≡ true) }
    ensures { (result ≡ rows_chosen (shape_of shape.kind shape.width shape.height) units mark) × (result ≤ shape.height) }
{
    if mark == 2 { 0 } else { x.rows }
}

// Whether the rows and the live cells fit k rows chosen.
#[tactic(auto, unfolding(elimination::specs::Shape::rows_fit))]
fn rows_fit(w: usize, k: usize, above: usize, last: usize, live: usize) -> bool
    requires { (w ≤ max_mirror_width) × (k ≤ max_height) }
    ensures { result ≡ rows_fit w k above last live }
{
    live <= w * k && (k != 0 || last == 0) && (k >= 2 || above == 0)
}

// The rule of a paused job.
fn rule_of(t: Checkpoint) -> Rule
    ensures { result ≡ rule_of t }
{
    Rule {
        births: t.births,
        survivals: t.survivals,
    }
}

// Whether resuming as a kind takes the numbers.
#[tactic(auto, unfolding(crate::specs::Jobs::checkpoint_fits, elimination::specs::Shape::numbers_fit))]
pub fn checkpoint_fits(kind: Kind, t: Checkpoint) -> bool
    ensures { result ≡ checkpoint_fits kind t }
{
    if t.kind != kind.number() {
        return false;
    }
    if rule::check(kind.halves(), rule_of(t), t.width, t.height).is_err() {
        return false;
    }
    let shape = Shape {
        kind,
        width: t.width,
        height: t.height,
    };
    if !shape.is_row(t.above) || !shape.is_row(t.last) {
        return false;
    }
    let x = shape.round_of(t.units);
    if !units_fit(shape, t.units, x, t.mark) {
        return false;
    }
    let k = rows_chosen(shape, t.units, x, t.mark);
    rows_fit(t.width, k, t.above, t.last, t.live)
}

// Whether a running job's stage is the task of its next unit.
#[tactic(auto, using(crate::proofs::Rounds::fills_left, crate::proofs::Rounds::chooses_left))]
fn stage_fits(shape: Shape, units: usize, stage: Stage) -> bool
    ensures { result ≡ stage_fits (shape_of shape.kind shape.width shape.height) units stage }
{
    let x = shape.round_of(units);
    match stage {
        Stage::Filling { .. } => x.left != 0,
        Stage::Choosing { .. } => x.left == 0,
        Stage::Finished { .. } => true,
        Stage::Infeasible => true,
    }
}

// Whether pausing and working take the job.
#[tactic(auto, unfolding(crate::specs::Jobs::job_fits))]
pub fn job_fits(job: Job) -> bool
    ensures { result ≡ job_fits job }
{
    if !checkpoint_fits(job.kind, numbers_of(job)) {
        return false;
    }
    let shape = Shape {
        kind: job.kind,
        width: job.width,
        height: job.height,
    };
    stage_fits(shape, job.units, job.stage)
}

// The numbers that a stage carries.
#[derive(Clone, Copy, Debug, PartialEq, Eq)]
pub struct Kept {
    pub above: usize,
    pub last: usize,
    pub live: usize,
    pub mark: usize,
}

// Row above, last row, live cells so far and end mark of a stage.
pub fn kept_in(stage: Stage) -> Kept
    ensures { (result.above ≡ above_of stage) × (result.last ≡ last_of stage) × (result.live ≡ live_of stage) × (result.mark ≡ mark_of stage) }
{
    match stage {
        Stage::Filling { above, last, live } => Kept {
            above,
            last,
            live,
            mark: 0,
        },
        Stage::Choosing { above, last, live } => Kept {
            above,
            last,
            live,
            mark: 0,
        },
        Stage::Finished { above, last, score } => Kept {
            above,
            last,
            live: score,
            mark: 1,
        },
        Stage::Infeasible => Kept {
            above: 0,
            last: 0,
            live: 0,
            mark: 2,
        },
    }
}

// The ten numbers of a job.
pub fn numbers_of(job: Job) -> Checkpoint
    ensures { result ≡ numbers_of job }
{
    let c = kept_in(job.stage);
    Checkpoint {
        width: job.width,
        height: job.height,
        units: job.units,
        above: c.above,
        last: c.last,
        live: c.live,
        mark: c.mark,
        births: job.rule.births,
        survivals: job.rule.survivals,
        kind: job.kind.number(),
    }
}

// The stage that numbers of a shape give.
#[tactic(auto, unfolding(crate::specs::Jobs::stage_of), using(crate::proofs::Rounds::fills_left))]
fn stage_of(shape: Shape, t: Checkpoint) -> Stage
    ensures { result ≡ stage_of shape.kind (record t { width = shape.width; height = shape.height }) }
{
    match t.mark {
        1 => Stage::Finished {
            above: t.above,
            last: t.last,
            score: t.live,
        },
        2 => Stage::Infeasible,
        _ => {
            let x = shape.round_of(t.units);
            running(x.left != 0, t.above, t.last, t.live)
        }
    }
}

// The stage of a running job: filling, or else choosing.
pub fn running(fills: bool, above: usize, last: usize, live: usize) -> Stage
    ensures { result ≡ cond fills (Stage.Filling above last live) (Stage.Choosing above last live) }
{
    if fills {
        Stage::Filling { above, last, live }
    } else {
        Stage::Choosing { above, last, live }
    }
}

// The job of a shape and the numbers that don't belong to it.
pub fn job_of(shape: Shape, t: Checkpoint) -> Job
    ensures { result ≡ job_of shape.kind (record t { width = shape.width; height = shape.height }) }
{
    Job {
        kind: shape.kind,
        rule: rule_of(t),
        width: shape.width,
        height: shape.height,
        units: t.units,
        stage: stage_of(shape, t),
    }
}
