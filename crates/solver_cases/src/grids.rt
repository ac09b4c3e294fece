// Grids of givens against plain enumeration: each by both kinds of job, in one run, and again in pieces.
use board::Refusal;
use job_kind::Kind;
use solver::Status;
use trials::plain::Best;
use trials::runs::Runs;
use trials::{After, Case, Rules, Size, count, plain, runs};

// What was tried of a group of grids.
#[derive(Clone, Copy, Default)]
struct Counts {
    grids: usize,
    boards: usize,
    // With several best boards.
    ties: usize,
    // With an edge three.
    edges: usize,
    // Differences of the answers to those.
    wrong: usize,
    ordinary: Runs,
    two_layers: Runs,
    // Differences between the two kinds.
    apart: usize,
}

// Every small grid, and then pseudo-random ones: under Conway's rule, under others with a name, and under pseudo-random ones, another for each grid.
pub fn try_all() {
    print("every grid up to 3 by 3: ", try_every());
    try_random("pseudo-random grids up to 4 by 4: ", Rules::Conway);
    try_random(
        "HighLife, pseudo-random grids up to 4 by 4: ",
        Rules::HighLife,
    );
    try_random(
        "Day & Night, pseudo-random grids up to 4 by 4: ",
        Rules::DayAndNight,
    );
    try_random("Seeds, pseudo-random grids up to 4 by 4: ", Rules::Seeds);
    try_random(
        "Life without death, pseudo-random grids up to 4 by 4: ",
        Rules::LifeWithoutDeath,
    );
    try_random(
        "pseudo-random rules and grids up to 4 by 4: ",
        Rules::Random,
    );
}

fn print(name: &str, c: Counts) {
    report::line(name, c.grids);
    report::line("  with a still board: ", c.boards);
    report::line("  of them with several best: ", c.ties);
    report::line("  with an edge three: ", c.edges);
    let none = c.grids.wrapping_sub(c.boards).wrapping_sub(c.edges);
    report::line("  with none: ", none);
    report::line("  differences over an edge three: ", c.wrong);
    print_runs("  by ordinary jobs: ", c.ordinary);
    print_runs("  by jobs of two layers: ", c.two_layers);
    report::line("  differences between the kinds: ", c.apart);
}

fn print_runs(name: &str, r: Runs) {
    report::line(name, r.jobs);
    report::line("  differences from enumeration: ", r.wrong);
    report::line("  working calls in pieces: ", r.calls);
    report::line("  calls refused in between: ", r.refused);
    report::line("  of them over an edge three: ", r.edges);
    report::line("  resumptions refused as the other kind: ", r.others);
    report::line("  differences from one run: ", r.unlike);
}

// Every grid of widths and heights 1 to 3: of so many cells 3 to that power.
fn try_every() -> Counts {
    let mut c = Counts::default();
    for k in 0..9usize {
        let size = Size::new(Kind::Ordinary, k % 3 + 1, k / 3 + 1);
        for number in 0..3usize.wrapping_pow((size.cells % 64) as u32) {
            let seed = c.grids.wrapping_add(1000000);
            try_grid(&Case::of_number(rule::conway(), size, seed, number), &mut c);
        }
    }
    c
}

// 200 grids of each size.
fn try_random(name: &str, rules: Rules) {
    let mut c = Counts::default();
    for k in 0..3200usize {
        let size = Size::new(Kind::Ordinary, k / 200 % 4 + 1, k / 200 / 4 + 1);
        let seed = c.grids.wrapping_add(2000000);
        try_grid(&Case::random(rules.rule(seed), size, seed), &mut c);
    }
    print(name, c);
}

// A grid with an edge three is turned away, and enumeration finds no board; any other is run by both kinds.
fn try_grid(case: &Case, c: &mut Counts) {
    let two = Case {
        size: Size::new(Kind::TwoLayers, case.size.w, case.size.h),
        ..*case
    };
    let best = plain::best_board(case);
    count(&mut c.grids);
    if let Some(place) = case.edge_three() {
        count(&mut c.edges);
        let refusal = Refusal::EdgeThree(place);
        if best.is_some() || !case.is_turned_away(refusal) || !two.is_turned_away(refusal) {
            case.differs("an edge three", &mut c.wrong);
        }
        return;
    }
    if let Some(b) = best {
        count(&mut c.boards);
        if b.tied {
            count(&mut c.ties);
        }
    }
    let ordinary = runs::try_case(case, best, &mut c.ordinary);
    let two_layers = runs::try_case(&two, best, &mut c.two_layers);
    if !are_alike(ordinary, two_layers) {
        case.differs("the answers or the boards of the two kinds", &mut c.apart);
    }
}

// Whether the runs of the two kinds, over the same leftovers, ended alike: both with a score, the same, or both with none, and with the same board.
fn are_alike(a: Option<After>, b: Option<After>) -> bool {
    match (a, b) {
        (Some(a), Some(b)) => {
            let ended = matches!(a.status, Ok(Status::Finished(_)) | Ok(Status::Infeasible));
            ended && a.status == b.status && a.memory.board == b.memory.board
        }
        _ => false,
    }
}
