// Targets under Conway's rule with known answers.
use crate::two_pieces;
use crate::two_pieces::Ended;
use job::Stage;
use job_kind::Kind;
use std::fmt::Write;
use trials::{Case, Size, plain};

// The entries of 5 by 5.
const ENTRIES: usize = 5120;

pub fn try_all() {
    live_targets();
    dead_targets();
}

fn live_targets() {
    try_target("block", 2, 2, 0b11_11);
    try_target("blinker", 3, 3, 0b000_111_000);
    try_target("one live cell", 1, 1, 1);
    try_target("row of three", 3, 1, 0b111);
    try_target("column of three", 1, 3, 0b111);
    try_target("row of three over a dead row", 3, 2, 0b111_000);
    try_target("tub", 3, 3, 0b010_101_010);
    try_target("3 by 3, all live", 3, 3, 0b111_111_111);
    try_target("beehive", 4, 3, 0b0110_1001_0110);
    try_target("glider", 5, 5, 0b00000_00100_00010_01110_00000);
}

fn dead_targets() {
    try_target("dead, 1 by 1", 1, 1, 0);
    try_target("dead, 2 by 2", 2, 2, 0);
    try_target("dead, 3 by 3", 3, 3, 0);
    try_target("dead, 6 by 1", 6, 1, 0);
    try_target("dead, 5 by 5", 5, 5, 0);
    try_target("dead, 1 by 20", 1, 20, 0);
}

// The target whose cells are the digits of a number.
fn try_target(name: &str, w: usize, h: usize, number: usize) {
    let size = Size::new(Kind::Predecessor, w, h);
    let case = Case::of_number(rule::conway(), size, 0, number);
    let mut table = [7u16; ENTRIES];
    report::text(name);
    match two_pieces::run(&case, &mut table) {
        Ok(ended) => print(&case, &ended),
        Err(r) => report::refusal(r),
    }
}

// The answer, the rows, and the units.
fn print(case: &Case, x: &Ended) {
    match x.job.stage {
        Stage::Finished { score, .. } => print_board(case, score, &x.board),
        Stage::Infeasible => report::text(": none"),
        _ => report::text(": not ended"),
    }
    report::line(", units ", x.job.units);
}

// A byte of 2 or more counts as what it is, so that it shows in its row's number.
fn print_board(case: &Case, score: usize, board: &[u8]) {
    let s = case.size;
    let _ = write!(report::Output, ": live {score}, rows");
    for r in 0..s.h {
        let row = plain::number_of(board, r.wrapping_mul(s.w), s.w);
        let _ = write!(report::Output, " {row}");
    }
    if plain::first_unlike(case.rule, s.w, s.h, board, &case.givens).is_some() {
        report::text(", which step to another board");
    }
}
