// Free squares of even sides 2 to 16: the scores of their best mirror boards, the units done, and that each board is a still mirror board with that
// many live cells. Side 18 is for bench/mirror.c, since its table is more than a program's stack holds.
use board::Refusal;
use job::{Job, Stage};
use job_kind::Kind;
use std::fmt::Write;
use trials::{Size, plain};

pub fn try_all() {
    let mut table = [0u16; 1048576]; // side 16's, 16 × 4^8
    squares(&mut table);
}

fn squares(table: &mut [u16]) {
    for k in 1..9usize {
        square(Size::new(Kind::Mirror, 2 * k, 2 * k), table);
    }
}

// Solves a free square, and prints what it came to. No more is lent than the square needs.
fn square(s: Size, table: &mut [u16]) {
    let givens = [0u8; 256];
    let mut board = [9u8; 256];
    let n = s.cells.min(256);
    let entries = s.room.min(table.len());
    let _ = write!(report::Output, "side {}", s.w);
    match run(s, &givens[..n], &mut table[..entries], &mut board[..n]) {
        Ok(job) => print(s, job, &board),
        Err(r) => report::refusal(r),
    }
}

// Much as in solver_squares: what the two share is `in_pieces`. Works in allowances of 600,000, two of which are more than side 16 has units.
fn run(s: Size, givens: &[u8], table: &mut [u16], board: &mut [u8]) -> Result<Job, Refusal> {
    let job = job::open(s.kind, rule::conway(), s.w, s.h, givens)?;
    trials::in_pieces(job, givens, table, board, &[600000; 2])
}

// The score, the units, and what the board is.
fn print(s: Size, job: Job, board: &[u8]) {
    match job.stage {
        Stage::Finished { score, .. } => print_score(score, live(board, s.cells)),
        _ => report::text(": not finished"),
    }
    let _ = write!(report::Output, ", units {}", job.units);
    report::text(match s.first_lopsided(board) {
        None => ", mirror",
        Some(_) => ", not mirror",
    });
    report::text(
        match plain::first_unlike(rule::conway(), s.w, s.h, board, board) {
            None => ", still\n",
            Some(_) => ", not still\n",
        },
    );
}

fn print_score(score: usize, live: usize) {
    let _ = write!(report::Output, ": score {score}");
    if live != score {
        let _ = write!(report::Output, ", other live cells {live}");
    }
}

// The live cells among the first n; another byte counts as what it is, so that it shows in the number.
fn live(board: &[u8], n: usize) -> usize {
    board
        .iter()
        .take(n)
        .fold(0usize, |sum, cell| sum.wrapping_add(*cell as usize))
}
