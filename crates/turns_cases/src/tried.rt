// Grids against their turned grids: the answers, and the boards.
use crate::answers::{Solution, Way};
use crate::cells::Cells;
use crate::eight_turns::Turn;
use crate::grids::Group;
use crate::{answers, cells, eight_turns, grids};
use job_kind::Kind;
use rule::Rule;
use trials::count;

// A grid, and what the library answers for it.
#[derive(Clone, Copy)]
struct Case {
    rule: Rule,
    seed: usize,
    givens: Cells,
    first: Solution,
}

// What was tried of a group of grids.
#[derive(Clone, Copy, Default)]
struct Tally {
    grids: usize,
    // Turned grids, and those of them that were solved in pieces, and by another kind of job than the grid.
    turned: usize,
    pieces: usize,
    others: usize,
    // Their answers: boards with the sum of their scores, none, refused by 14.
    boards: usize,
    scores: usize,
    none: usize,
    edges: usize,
    // Boards that the judge calls still.
    still: usize,
    wrong: usize,
}

fn print(name: &str, t: Tally) {
    report::line(name, t.grids);
    report::line("  turned grids solved: ", t.turned);
    report::line("  of them in pieces: ", t.pieces);
    report::line("  of them by the other kind of job: ", t.others);
    report::line("  with a board: ", t.boards);
    report::line("  sum of their scores: ", t.scores);
    report::line("  with none: ", t.none);
    report::line("  refused 14: ", t.edges);
    report::line("  boards judged still: ", t.still);
    report::line("  differences: ", t.wrong);
}

// The first grids of a group, under a rule.
pub fn try_group(name: &str, group: Group, rule: Rule, end: usize) {
    let mut t = Tally::default();
    for k in 0..end {
        try_grid(rule, k, grids::grid(group, k), &mut t);
    }
    print(name, t);
}

fn try_grid(rule: Rule, seed: usize, givens: Cells, t: &mut Tally) {
    let way = Way {
        kind: kind_of(seed),
        rule,
        in_pieces: false,
        seed,
    };
    let case = Case {
        rule,
        seed,
        givens,
        first: answers::solve(way, givens),
    };
    count(&mut t.grids);
    for n in 0..8 {
        try_turn(&case, n, t);
    }
}

fn kind_of(seed: usize) -> Kind {
    if seed % 2 == 0 {
        Kind::Ordinary
    } else {
        Kind::TwoLayers
    }
}

// A grid turned, solved by the one kind of job or the other, and a third of them in pieces.
fn try_turn(case: &Case, n: usize, t: &mut Tally) {
    let x = pseudo_random::below(1000000, case.seed, n.wrapping_add(3000));
    let way = Way {
        kind: kind_of(case.seed.wrapping_add(x % 2)),
        rule: case.rule,
        in_pieces: x / 2 % 3 == 0,
        seed: x,
    };
    count(&mut t.turned);
    if way.in_pieces {
        count(&mut t.pieces);
    }
    if x % 2 == 1 {
        count(&mut t.others);
    }
    let turn = eight_turns::numbered(n);
    let givens = eight_turns::by_steps(turn, case.givens);
    compare(case, turn, givens, answers::solve(way, givens), t);
}

// The answers are the same, and where there are boards they fit: the grid's board, turned, and the turned grid's own are still, keep the turned
// givens, and have the score.
fn compare(case: &Case, turn: Turn, givens: Cells, own: Solution, t: &mut Tally) {
    if !answers::are_same(case.first.answer, own.answer) {
        differ("the answer", case, turn, t);
        return;
    }
    let Ok(best) = own.answer else {
        count(&mut t.edges);
        return;
    };
    let Some(score) = best else {
        count(&mut t.none);
        return;
    };
    count(&mut t.boards);
    t.scores = t.scores.wrapping_add(score);
    let board = eight_turns::at_once(turn, case.first.board);
    if !(fits(case, givens, board, score, t) & fits(case, givens, own.board, score, t)) {
        differ("a board", case, turn, t);
    }
}

// Whether a board is still, keeps the givens and has the score; counts the still ones.
fn fits(case: &Case, givens: Cells, board: Cells, score: usize, t: &mut Tally) -> bool {
    if !answers::is_still(case.rule, board) {
        return false;
    }
    count(&mut t.still);
    grids::is_filled_in(givens, board, score)
}

// Prints a difference, and counts it.
fn differ(what: &str, case: &Case, turn: Turn, t: &mut Tally) {
    report::text("difference: ");
    report::text(what);
    report::line(", births ", case.rule.births);
    report::line("  survivals ", case.rule.survivals);
    report::text("  givens");
    cells::print(case.givens);
    eight_turns::print(turn);
    report::text("\n");
    count(&mut t.wrong);
}
