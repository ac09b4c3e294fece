// Tries predecessor jobs: every small target against plain enumeration of boards, the same in random pieces, other rules, forged numbers, and targets
// with known answers. Prints what was tried.
#![tactic(auto)]

mod known;
mod plain;
mod targets;
mod two_pieces;
mod wide;

use job_kind::Kind;
use trials::{Rules, forged};

fn main() {
    known::try_all();
    targets::try_all();
    wide::try_all();
    let _ = forged::try_jobs("forged jobs: ", Kind::Predecessor, Rules::Conway, 6000);
    let _ = forged::try_jobs(
        "forged jobs under other rules: ",
        Kind::Predecessor,
        Rules::Random,
        6000,
    );
}
