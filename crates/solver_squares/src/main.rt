// The best still boards of the free squares of side 3 to 10: their scores, the units done, and that each is still. Sides 3 to 9 are solved by both
// kinds of job, and the boards compared; side 10 by two layers only, since its whole table is more than a program's stack holds.
#![tactic(auto)]

ghost use Rattle.std.specs.Prelude.{◌≡◌};
ghost use Rattle.rule.specs.Rule.{conway_rule};
ghost use Rattle.life.specs.Calls.{verdict_says, judge_rule};

use board::Refusal;
use job::{Job, Stage};
use job_kind::Kind;
use life::Change;
use std::fmt::Write;

fn main() {
    let mut table = [0u16; 2359296]; // side 9's, 9 × 4^9, and more than the two layers of side 10
    squares(&mut table);
}

fn squares(table: &mut [u16]) {
    for side in 3..11 {
        square(side, table);
    }
}

// Solves a free square, and prints what it came to.
fn square(side: usize, table: &mut [u16]) {
    let mut board = [9u8; 100];
    let _ = write!(report::Output, "side {side}");
    if side == 10 {
        report::text(", two layers");
        let _ = solve(Kind::TwoLayers, side, table, &mut board);
        report::text("\n");
        return;
    }
    let score = solve(Kind::Ordinary, side, table, &mut board);
    report::text("\n");
    if side == 3 {
        print_rows(&board);
    }
    solve_again(side, score, &board, table);
}

// Solves a square by two layers, and says whether that comes to the score and the board of the ordinary job.
fn solve_again(side: usize, score: Option<usize>, board: &[u8], table: &mut [u16]) {
    let mut again = [9u8; 100];
    report::text("  two layers");
    if solve(Kind::TwoLayers, side, table, &mut again) != score {
        report::text(", another score");
    }
    if board == again.as_slice() {
        report::text(", the same board\n");
    } else {
        report::text(", another board\n");
    }
}

// Solves a square by a kind of job, with no more lent than the kind needs: the score.
fn solve(kind: Kind, side: usize, table: &mut [u16], board: &mut [u8]) -> Option<usize> {
    let givens = [0u8; 100];
    let n = side.wrapping_mul(side).min(givens.len()).min(board.len());
    let entries = board::table_size(side, kind.layers(side)).min(table.len());
    match run(
        kind,
        side,
        &givens[..n],
        &mut table[..entries],
        &mut board[..n],
    ) {
        Ok(job) => print(side, job, &board[..n]),
        Err(r) => {
            report::refusal(r);
            None
        }
    }
}

// Works in allowances of 20 million, which have whole layers of every side, and 3 of which are more than side 10 has units.
fn run(
    kind: Kind,
    side: usize,
    givens: &[u8],
    table: &mut [u16],
    board: &mut [u8],
) -> Result<Job, Refusal> {
    let job = job::open(kind, rule::conway(), side, side, givens)?;
    trials::in_pieces(job, givens, table, board, &[20000000; 3])
}

// The score, the units, and the judge's verdict on the board. A finished job's score.
fn print(side: usize, job: Job, board: &[u8]) -> Option<usize> {
    let score = match job.stage {
        Stage::Finished { score, .. } => Some(score),
        _ => None,
    };
    match score {
        Some(n) => {
            let _ = write!(report::Output, ": score {n}");
        }
        None => report::text(": not finished"),
    }
    let _ = write!(report::Output, ", units {}", job.units);
    match judged(side, board) {
        Ok(None) => report::text(", still"),
        Ok(Some(_)) => report::text(", not still"),
        Err(r) => report::refusal(r),
    }
    score
}

// The judge's verdict on a square, by the rule and the size that were asked for, whatever a job says of its own.
fn judged(side: usize, board: &[u8]) -> Result<Option<Change>, Refusal>
    ensures { verdict_says result ≡ judge_rule conway_rule side side board.now }
{
    life::judge(rule::conway(), side, side, board)
}

// The rows of a board of width 3, as numbers.
fn print_rows(board: &[u8]) {
    report::text("  rows");
    for r in 0..3usize {
        let row = trials::plain::number_of(board, 3 * r, 3);
        let _ = write!(report::Output, " {row}");
    }
    report::text("\n");
}
