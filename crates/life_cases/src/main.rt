// Tries the step, the judge and the generator: known boards, refusals, and boards of every size and other rules against a plain
// count of neighbours. Prints what was tried.
#![tactic(auto)]

use life::Change;
use plain::digits;
use report::Output;
use rule::Rule;
use std::fmt::Write;

mod compared;
mod plain;
mod tables;

fn main() {
    known_boards();
    patterns();
    compared::conway();
    compared::other_rules();
    compared::random_rules();
    tables::random_rules();
    tables::conway();
    tables::cases();
    steps_refused();
    judgements_refused();
    tables::refused();
    givens_refused();
    targets_refused();
}

// Boards with a name, each with its verdict.
fn known_boards() {
    judge("block", rule::conway(), 2, 2, &digits::<4>(0b11_11));
    judge(
        "blinker",
        rule::conway(),
        5,
        3,
        &digits::<15>(0b00000_01110_00000),
    );
    judge("tub", rule::conway(), 3, 3, &digits::<9>(0b010_101_010));
    judge("boat", rule::conway(), 3, 3, &digits::<9>(0b110_101_010));
    judge(
        "beehive",
        rule::conway(),
        4,
        3,
        &digits::<12>(0b0110_1001_0110),
    );
    judge(
        "rows 3, 5, 6",
        rule::conway(),
        3,
        3,
        &digits::<9>(0b011_101_110),
    );
    judge("row of three", rule::conway(), 3, 1, &digits::<3>(0b111));
    judge("10 by 60, dead", rule::conway(), 10, 60, &[0; 600]);
    judge("10 by 60, live", rule::conway(), 10, 60, &[1; 600]);
}

// The table's entries for some patterns.
fn patterns() {
    let next = rule::table::conway();
    report::line("pattern 7: ", next[7] as usize);
    report::line("pattern 16: ", next[16] as usize);
    report::line("pattern 511: ", next[511] as usize);
}

// A rule with births on 0 and 3.
fn barred() -> Rule {
    Rule {
        births: 9,
        survivals: 12,
    }
}

// Each refusal of a step, in the order of its checks, each with what the later checks would refuse too.
fn steps_refused() {
    let cells = digits::<3>(0b111);
    let block = digits::<4>(0b11_11);
    step(
        "step, width 0, height 61",
        barred(),
        0,
        61,
        &cells,
        &mut [9; 15],
    );
    step(
        "step, width 11, height 0",
        barred(),
        11,
        0,
        &cells,
        &mut [9; 15],
    );
    step(
        "step, height 0, births on 0",
        barred(),
        2,
        0,
        &cells,
        &mut [9; 15],
    );
    step(
        "step, height 61, births on 0",
        barred(),
        2,
        61,
        &cells,
        &mut [9; 15],
    );
    step(
        "step, births on 0, 3 cells of 4",
        barred(),
        2,
        2,
        &cells,
        &mut [9; 15],
    );
    step(
        "step, 3 cells of 4",
        rule::conway(),
        2,
        2,
        &cells,
        &mut [9; 15],
    );
    step(
        "step, 5 cells of 4",
        rule::conway(),
        2,
        2,
        &digits::<5>(0b111),
        &mut [9; 15],
    );
    report::check(
        "step, cells 0, 1, 2 of 4",
        life::step(rule::conway(), 2, 2, &[0, 1, 2], &mut [9; 15]),
    );
    report::check(
        "step, cells 0, 1, 2, 3",
        life::step(rule::conway(), 2, 2, &[0, 1, 2, 3], &mut [9; 15]),
    );
    step(
        "step, a ring of 15 bytes",
        rule::conway(),
        2,
        2,
        &block,
        &mut [9; 15],
    );
    step(
        "step, a ring of 17 bytes",
        rule::conway(),
        2,
        2,
        &block,
        &mut [9; 17],
    );
    step(
        "step, a ring of 16 bytes",
        rule::conway(),
        2,
        2,
        &block,
        &mut [9; 16],
    );
}

fn judgements_refused() {
    let cells = [0; 3];
    judge("judge, width 0, height 61", barred(), 0, 61, &cells);
    judge("judge, width 11, height 0", barred(), 11, 0, &cells);
    judge("judge, height 0, births on 0", barred(), 2, 0, &cells);
    judge("judge, height 61, births on 0", barred(), 2, 61, &cells);
    judge("judge, births on 0, 3 cells of 4", barred(), 2, 2, &cells);
    judge("judge, 3 cells of 4", rule::conway(), 2, 2, &cells);
    judge("judge, 5 cells of 4", rule::conway(), 2, 2, &[0; 5]);
    judge(
        "judge, cells 0, 255, 1 of 4",
        rule::conway(),
        2,
        2,
        &[0, 255, 1],
    );
    judge(
        "judge, cells 0, 255, 1, 2",
        rule::conway(),
        2,
        2,
        &[0, 255, 1, 2],
    );
}

fn givens_refused() {
    report::check(
        "givens 0, 1, 2, 0",
        board::check_givens(2, 2, &[0, 1, 2, 0]),
    );
    report::check("givens 0, 1, 2", board::check_givens(2, 2, &[0, 1, 2]));
    report::check(
        "givens 0, 1, 2, 0, 3",
        board::check_givens(2, 2, &[0, 1, 2, 0, 3]),
    );
    report::check(
        "givens 0, 3, 2, 4",
        board::check_givens(2, 2, &[0, 3, 2, 4]),
    );
}

fn targets_refused() {
    report::check(
        "target 0, 1, 1, 0",
        board::check_target(2, 2, &[0, 1, 1, 0]),
    );
    report::check("target 0, 1, 2", board::check_target(2, 2, &[0, 1, 2]));
    report::check(
        "target 0, 1, 1, 0, 2",
        board::check_target(2, 2, &[0, 1, 1, 0, 2]),
    );
    report::check(
        "target 0, 1, 2, 0",
        board::check_target(2, 2, &[0, 1, 2, 0]),
    );
    report::check(
        "target 0, 255, 2, 1",
        board::check_target(2, 2, &[0, 255, 2, 1]),
    );
    report::check("target of no cell", board::check_target(2, 0, &[]));
    report::check(
        "target of 3 by 2",
        board::check_target(3, 2, &[0, 1, 1, 0, 1, 1]),
    );
    report::check(
        "the same as 2 by 2",
        board::check_target(2, 2, &[0, 1, 1, 0, 1, 1]),
    );
}

// Steps a board into nines, and prints how many bytes are no nine afterwards.
fn step(name: &str, rule: Rule, w: usize, h: usize, cells: &[u8], ring: &mut [u8]) {
    report::check(name, life::step(rule, w, h, cells, ring));
    report::line("  bytes written: ", plain::other_than(ring, 9));
}

// A line: a name and a board's verdict.
fn judge(name: &str, rule: Rule, w: usize, h: usize, cells: &[u8]) {
    match life::judge(rule, w, h, cells) {
        Ok(None) => {
            report::text(name);
            report::text(": still\n");
        }
        Ok(Some(Change { row, column })) => {
            let _ = writeln!(Output, "{name}: changes at row {row}, column {column}");
        }
        Err(r) => report::check(name, Err(r)),
    }
}
