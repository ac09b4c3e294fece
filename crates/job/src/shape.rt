// The shape of a job: in rounds, one for each row, layers are filled and then the row is chosen. The round that a unit is in says what it does.
ghost use Rattle.std.specs.Prelude.{◌≡◌, cond, ltb, ◌^◌, ◌*◌, ◌≤◌, ◌<◌, option_map};
ghost use Rattle.board.specs.Boards.{max_width, max_height, Width};
ghost use Rattle.elimination.specs.Rounds.{round_fill};
ghost use Rattle.job_kind.specs.Kinds.{halves_of, kind_digits, board_length, round_work, layer_start, shape_of};
ghost use Rattle.job.specs.Jobs.{task_of};
ghost use Rattle.job.specs.Inner.{RoundIs};

use crate::Task;
use job_kind::Kind;

// The round of a unit: the rows chosen before it, its place in the round, and the entries that are left to fill in the round, its own counted.
#[derive(Clone, Copy, Debug, PartialEq, Eq)]
pub struct Round {
    pub rows: usize,
    pub place: usize,
    pub left: usize,
}

// A kind of job with a width and a height within its limits: a row's number has at most 10 binary digits, and there are at most 60 rows.
#[derive(Clone, Copy, Debug, PartialEq, Eq)]
pub struct Shape {
    pub kind: Kind,
    pub width: usize,
    pub height: usize,
    ghost narrow: { Width (halves_of kind) width },
    ghost low: { height ≤ max_height },
}

impl Shape {
    // The binary digits of the number of a row.
    pub fn row_digits(self) -> usize
        ensures { (result ≡ kind_digits self.kind self.width) × (result ≤ max_width) }
    {
        self.kind.row_digits(self.width)
    }

    // Whether a number is that of a row.
    #[tactic(auto, using(crate::proofs::Checkpoints::shift_none, crate::proofs::Checkpoints::shift_some))]
    pub fn is_row(self, number: usize) -> bool
        ensures { result ≡ ltb number (2 ^ kind_digits self.kind self.width) }
    {
        number >> self.row_digits() == 0
    }

    // The entries of so many layers.
    fn entries(self, layers: usize) -> usize
        requires { layers ≤ max_height }
        ensures { (result ≡ layers * 4 ^ kind_digits self.kind self.width) × (result ≤ 62914560) }
    {
        layers << (2 * self.row_digits())
    }

    // The entries filled in the round of the row that has r rows above it.
    #[tactic(auto, using(job_kind::proofs::Shapes::work_first, job_kind::proofs::Shapes::work_later))]
    fn work_before(self, r: usize) -> usize
        requires { r ≤ self.height }
        ensures { (result ≡ round_work self.kind self.width self.height r) × (result ≤ 62914560) }
    {
        if self.kind.refills() {
            return self.entries(self.height - r);
        }
        if r != 0 {
            return 0;
        }
        self.entries(self.height)
    }

    // Where the layer starts by which the row that has r rows above it is chosen.
    fn layer_start(self, r: usize) -> usize
        requires { r ≤ max_height }
        ensures { result ≡ layer_start self.kind self.width r }
    {
        if self.kind.refills() {
            return self.entries((r + 1) % 2);
        }
        self.entries(r)
    }

    // The round of a unit.
    pub fn round_of(self, units: usize) -> Round
        ensures { RoundIs self.kind self.width self.height units result }
    {
        let mut place = units;
        for rows in 0..self.height {
            let work = self.work_before(rows);
            if place <= work {
                return Round {
                    rows,
                    place,
                    left: work - place,
                };
            }
            place = place - work - 1;
        }
        Round {
            rows: self.height,
            place,
            left: 0,
        }
    }

    // What a unit is to do; nothing past the job's length.
    #[tactic(auto, using(crate::proofs::Rounds::fills_entry, crate::proofs::Rounds::chooses_row, crate::proofs::Rounds::rows_spent))]
    pub fn task_at(self, units: usize) -> Option<Task>
        ensures { option_map task_of result ≡
            cond (ltb units (board_length self.kind self.width self.height)) (Some ((shape_of self.kind self.width self.height).plan units)) None }
    {
        let x = self.round_of(units);
        if x.left != 0 {
            return Some(self.fill_at(x.place));
        }
        if x.rows < self.height {
            let row = x.rows;
            let source = self.layer_start(row);
            return Some(Task::Choose { row, source });
        }
        None
    }

    // The entry at a place of a round.
    fn fill_at(self, place: usize) -> Task
        requires { place < self.height * 4 ^ kind_digits self.kind self.width }
        ensures { task_of result ≡ round_fill self.height (4 ^ kind_digits self.kind self.width) (layer_start self.kind self.width) place }
    {
        let q = self.entries(1);
        let after = place / q;
        let source = self.layer_start(self.height - after);
        let target = self.layer_start(self.height - 1 - after);
        let entry = place % q;
        Task::Fill {
            after,
            source,
            target,
            entry,
        }
    }
}
