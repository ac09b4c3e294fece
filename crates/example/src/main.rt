// The calls of a job in a row: open, work, pause, resume, work on. README.md shows it.
#![tactic(auto)]

use board::Refusal;
use job::Checkpoint;
use job_kind::Kind;
use solver::Status;
use std::fmt::Write;

fn main() {
    if let Err(r) = run() {
        report::refusal(r);
    }
}

fn run() -> Result<(), Refusal> {
    let givens = [0u8; 4]; // 2 by 2, every cell free
    let mut table = [7u16; 32]; // 2 × 4^2 entries, with leftovers
    let mut board = [9u8; 4];
    let kind = Kind::Ordinary;
    let job = job::open(kind, rule::conway(), 2, 2, &givens)?;
    let first = solver::work(job, &givens, &mut table, &mut board, 9);
    print_status(first.status?);
    let numbers = first.job.pause()?;
    print_numbers(numbers);
    let resumed = numbers.resume(kind)?;
    let second = solver::work(resumed, &givens, &mut table, &mut board, 1000);
    print_status(second.status?);
    print_board(&board);
    Ok(())
}

fn print_status(status: Status) {
    match status {
        Status::Unfinished => report::text("unfinished\n"),
        Status::Finished(score) => report::line("finished, score ", score),
        Status::Infeasible => report::text("none\n"),
    }
}

fn print_numbers(n: Checkpoint) {
    report::text("paused:");
    let fields = [
        n.width,
        n.height,
        n.units,
        n.above,
        n.last,
        n.live,
        n.mark,
        n.births,
        n.survivals,
        n.kind,
    ];
    for x in fields {
        let _ = write!(report::Output, " {x}");
    }
    report::text("\n");
}

fn print_board(board: &[u8]) {
    for cell in board {
        let _ = write!(report::Output, "{cell}");
    }
    report::text("\n");
}
