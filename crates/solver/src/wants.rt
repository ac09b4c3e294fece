// What is wanted of a grid's rows.
ghost use Rattle.std.specs.Prelude.{◌≡◌};
ghost use Rattle.third_demand.specs.Units.{want_by};

use job::Job;
use job_kind::Kind;
use score_table::{Grid, Want};

// By the kind of job.
fn want_by(kind: Kind) -> Want
    ensures { result ≡ want_by kind }
{
    score_table::want_of(kind.halves(), kind.has_target())
}

// The grid of a job, with the table of its rule and its givens.
pub fn grid_of<'a>(next: &'a [u8; 512], job: Job, givens: &'a [u8]) -> Grid<'a>
    ensures { (result.next ≡ next.entry) × (result.want ≡ want_by job.kind) × (result.width ≡ job.width) × (result.height ≡ job.height) × (result.givens ≡ givens.entry) }
{
    Grid {
        next,
        want: want_by(job.kind),
        width: job.width,
        height: job.height,
        givens,
    }
}
