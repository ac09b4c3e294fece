// Tries jobs of mirror boards: every small grid against plain enumeration, the same in random pieces, other rules, forged numbers, and free squares.
// Prints what was tried.
#![tactic(auto)]

mod grids;
mod squares;

use job_kind::Kind;
use trials::{Rules, forged};

fn main() {
    grids::try_all();
    let _ = forged::try_jobs("forged jobs: ", Kind::Mirror, Rules::Conway, 6000);
    let _ = forged::try_jobs(
        "forged jobs under other rules: ",
        Kind::Mirror,
        Rules::Random,
        6000,
    );
    squares::try_all();
}
