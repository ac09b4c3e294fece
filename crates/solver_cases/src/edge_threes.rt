// Edge threes: what opening and working answer for grids with them and without, by ordinary jobs and by those of two layers.
use board::Refusal;
use job_kind::Kind;
use rule::Rule;
use trials::{Case, Rules, Size};

// What was tried of a group of grids.
#[derive(Clone, Copy, Default)]
struct Tally {
    grids: usize,
    found: usize,
    wrong: usize,
}

pub fn try_all() {
    try_lines("every grid of 1 by 9 and 9 by 1: ", Rules::Conway);
    try_lines("the same under pseudo-random rules: ", Rules::Random);
    try_random(
        "pseudo-random grids up to 4 by 4, a third live: ",
        Rules::Conway,
    );
    try_random("the same under pseudo-random rules: ", Rules::Random);
}

// Every grid of one column of nine cells, and of one row of nine.
fn try_lines(name: &str, rules: Rules) {
    let mut t = Tally::default();
    for number in 0..19683usize {
        let rule = rules.rule(number);
        try_number(rule, 1, 9, number, &mut t);
        try_number(rule, 9, 1, number, &mut t);
    }
    print(name, t);
}

// 1,000 grids of each size up to 4 by 4, a third of their marks live.
fn try_random(name: &str, rules: Rules) {
    let mut t = Tally::default();
    for k in 0..16000usize {
        let number = pseudo_random::below(43046721, k, 700000);
        try_number(rules.rule(k), k % 4 + 1, k / 4 % 4 + 1, number, &mut t);
    }
    print(name, t);
}

fn print(name: &str, t: Tally) {
    report::line(name, t.grids);
    report::line("  with an edge three: ", t.found);
    report::line("  jobs of both kinds: ", t.grids.wrapping_mul(2));
    report::line("  differences from runs of live marks: ", t.wrong);
}

// A grid, opened and worked on by both kinds.
fn try_number(rule: Rule, w: usize, h: usize, number: usize, t: &mut Tally) {
    let case = Case::of_number(rule, Size::new(Kind::Ordinary, w, h), number, number);
    let two = Case {
        size: Size::new(Kind::TwoLayers, w, h),
        ..case
    };
    trials::count(&mut t.grids);
    if case.edge_three().is_some() {
        trials::count(&mut t.found);
    }
    if !is_answered(&case) || !is_answered(&two) {
        case.differs("an edge three", &mut t.wrong);
    }
}

// Whether a grid with an edge three is turned away, and any other worked on.
fn is_answered(case: &Case) -> bool {
    match case.edge_three() {
        Some(place) => case.is_turned_away(Refusal::EdgeThree(place)),
        None => case.is_worked_on(),
    }
}
