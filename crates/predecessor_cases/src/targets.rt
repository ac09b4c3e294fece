// Targets against plain enumeration of boards: each in one run, and again in pieces.
use crate::plain;
use job_kind::Kind;
use rule::Rule;
use trials::runs::Runs;
use trials::{Case, Rules, Size, count, runs};

// What was tried of a group of targets.
#[derive(Clone, Copy, Default)]
struct Counts {
    targets: usize,
    boards: usize,
    // With the dead board as the best.
    dead: usize,
    // With three live cells side by side on an edge, and with a cell that differs from its reflection: neither is refused.
    edges: usize,
    lopsided: usize,
    // With bytes altered to 2 or more, and differences of the answers to those.
    bad: usize,
    bad_wrong: usize,
    // Of each target.
    runs: Runs,
}

pub fn try_all() {
    let mut firsts = [None; plain::BOARDS];
    let f = &mut firsts;
    try_every("every target up to 3 by 3: ", Rules::Conway, f);
    try_random(
        "pseudo-random targets of 2 by 2 to 4 by 4: ",
        Rules::Conway,
        1,
        f,
    );
    try_long(
        "pseudo-random targets of 5 by 1, 3 by 5, 2 by 8 and 1 by 16: ",
        Rules::Conway,
        f,
    );
    try_every("HighLife, every target up to 3 by 3: ", Rules::HighLife, f);
    try_random(
        "HighLife, pseudo-random targets of 2 by 2 to 4 by 4: ",
        Rules::HighLife,
        1,
        f,
    );
    try_every(
        "Day & Night, every target up to 3 by 3: ",
        Rules::DayAndNight,
        f,
    );
    try_random(
        "Day & Night, pseudo-random targets of 2 by 2 to 4 by 4: ",
        Rules::DayAndNight,
        1,
        f,
    );
    try_every("Seeds, every target up to 3 by 3: ", Rules::Seeds, f);
    try_random(
        "Seeds, pseudo-random targets of 2 by 2 to 4 by 4: ",
        Rules::Seeds,
        1,
        f,
    );
    try_every(
        "Life without death, every target up to 3 by 3: ",
        Rules::LifeWithoutDeath,
        f,
    );
    try_random(
        "Life without death, pseudo-random targets of 2 by 2 to 4 by 4: ",
        Rules::LifeWithoutDeath,
        1,
        f,
    );
    try_every(
        "pseudo-random rules, every target up to 3 by 3: ",
        Rules::Random,
        f,
    );
    try_random(
        "pseudo-random rules and targets of 2 by 2 to 4 by 4: ",
        Rules::Random,
        20,
        f,
    );
}

fn print(name: &str, c: Counts) {
    report::line(name, c.targets);
    report::line("  with a board: ", c.boards);
    report::line("  of them with the dead board: ", c.dead);
    report::line("  with none: ", c.targets.wrapping_sub(c.boards));
    report::line("  with three live cells in a line along an edge: ", c.edges);
    report::line("  lopsided: ", c.lopsided);
    report::line("  with a byte altered to 2 or more: ", c.bad);
    report::line("  differences over such bytes: ", c.bad_wrong);
    let r = c.runs;
    report::line("  jobs in one run: ", r.jobs);
    report::line("  differences from enumeration: ", r.wrong);
    report::line("  working calls in pieces: ", r.calls);
    report::line("  calls refused in between: ", r.refused);
    report::line("  of them over a byte of 2 or more: ", r.altered);
    report::line("  resumptions refused as the other kinds: ", r.others);
    report::line("  differences from one run: ", r.unlike);
}

fn size(w: usize, h: usize) -> Size {
    Size::new(Kind::Predecessor, w, h)
}

// All targets of widths and heights 1 to 3, each size under one of the rules.
fn try_every(name: &str, rules: Rules, firsts: &mut [Option<usize>]) {
    let mut c = Counts::default();
    for k in 0..9usize {
        let s = size(k % 3 + 1, k / 3 + 1);
        let rule = rules.rule(k);
        plain::enumerate(rule, s, firsts);
        for number in 0..plain::boards(s) {
            let seed = c.targets.wrapping_add(1000000);
            try_target(&Case::of_number(rule, s, seed, number), firsts, &mut c);
        }
    }
    print(name, c);
}

// 400 targets of each of four sizes, higher than 4 or wider.
fn try_long(name: &str, rules: Rules, firsts: &mut [Option<usize>]) {
    let mut c = Counts::default();
    for (w, h) in [(5, 1), (3, 5), (2, 8), (1, 16)] {
        try_rules(rules, size(w, h), 1, firsts, &mut c);
    }
    print(name, c);
}

// 400 targets of each size, widths and heights 2 to 4, under so many rules.
fn try_random(name: &str, rules: Rules, many: usize, firsts: &mut [Option<usize>]) {
    let mut c = Counts::default();
    for k in 0..9usize {
        try_rules(rules, size(k % 3 + 2, k / 3 + 2), many, firsts, &mut c);
    }
    print(name, c);
}

fn try_rules(rules: Rules, s: Size, many: usize, firsts: &mut [Option<usize>], c: &mut Counts) {
    for _ in 0..many {
        let rule = rules.rule(c.targets.wrapping_add(2000000));
        try_seeds(rule, s, 400 / many, firsts, c);
    }
}

// So many pseudo-random targets of a size.
fn try_seeds(rule: Rule, s: Size, targets: usize, firsts: &mut [Option<usize>], c: &mut Counts) {
    plain::enumerate(rule, s, firsts);
    for _ in 0..targets {
        let seed = c.targets.wrapping_add(2000000);
        try_target(&Case::random(rule, s, seed), firsts, c);
    }
}

// A target against what enumeration left of its size.
fn try_target(case: &Case, firsts: &[Option<usize>], c: &mut Counts) {
    let best = plain::best_board(firsts, case);
    count(&mut c.targets);
    if let Some(b) = best {
        count(&mut c.boards);
        if b.score == 0 {
            count(&mut c.dead);
        }
    }
    if case.edge_three().is_some() {
        count(&mut c.edges);
    }
    if case.size.first_lopsided(&case.givens).is_some() {
        count(&mut c.lopsided);
    }
    try_bad(case, c);
    runs::try_case(case, best, &mut c.runs);
}

// The target with bytes of 2 or more: opening and working refuse it with the first one's place, and working writes nothing.
fn try_bad(case: &Case, c: &mut Counts) {
    let (bad, refusal) = case.altered(case.seed);
    count(&mut c.bad);
    if !bad.is_turned_away(refusal) {
        bad.differs("a byte of 2 or more", &mut c.bad_wrong);
    }
}
