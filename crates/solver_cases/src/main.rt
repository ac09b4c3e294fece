// Tries the solver by ordinary jobs and by those of two layers: every small grid against plain enumeration, the same in random pieces, other rules,
// edge threes, forged jobs, numbers that resuming and pausing take, and lengths at the limits; of predecessor jobs these numbers and lengths alone.
// Prints what was tried. Crate mirror_cases has the jobs of mirror boards, and predecessor_cases the predecessor jobs.
#![tactic(auto)]

mod edge_threes;
mod grids;
mod limits;
mod numbers;

use job_kind::Kind;
use trials::{Rules, forged};

fn main() {
    grids::try_all();
    edge_threes::try_all();
    try_forged(
        "forged jobs: ",
        "forged jobs under other rules: ",
        Kind::Ordinary,
    );
    try_forged(
        "forged jobs of two layers: ",
        "forged jobs of two layers under other rules: ",
        Kind::TwoLayers,
    );
    numbers::try_all();
    limits::try_all();
}

fn try_forged(name: &str, other_rules: &str, kind: Kind) {
    let _ = forged::try_jobs(name, kind, Rules::Conway, 6000);
    let _ = forged::try_jobs(other_rules, kind, Rules::Random, 6000);
}
