// Grids of givens against plain enumeration of mirror boards: each in one run, and again in pieces.
use board::Refusal;
use job_kind::Kind;
use trials::runs::Runs;
use trials::{Case, Rules, Size, count, plain, runs};

// What was tried of a group of grids.
#[derive(Clone, Copy, Default)]
struct Counts {
    grids: usize,
    boards: usize,
    // With several best boards.
    ties: usize,
    // With an edge three.
    edges: usize,
    // Differences of the answers to those.
    edges_wrong: usize,
    // With one mark altered, so that they are lopsided, and differences of the answers to those.
    lopsided: usize,
    lopsided_wrong: usize,
    // Of each other grid.
    runs: Runs,
}

pub fn try_all() {
    print("every mirror grid up to 6 by 3: ", try_every());
    try_random("pseudo-random mirror grids up to 6 by 4: ", Rules::Conway);
    try_random(
        "Day & Night, pseudo-random mirror grids up to 6 by 4: ",
        Rules::DayAndNight,
    );
    try_random(
        "Seeds, pseudo-random mirror grids up to 6 by 4: ",
        Rules::Seeds,
    );
    try_random(
        "Life without death, pseudo-random mirror grids up to 6 by 4: ",
        Rules::LifeWithoutDeath,
    );
    try_random(
        "pseudo-random rules and mirror grids up to 6 by 4: ",
        Rules::Random,
    );
}

fn print(name: &str, c: Counts) {
    report::line(name, c.grids);
    report::line("  with a still mirror board: ", c.boards);
    report::line("  of them with several best: ", c.ties);
    report::line("  with an edge three: ", c.edges);
    let none = c.grids.wrapping_sub(c.boards).wrapping_sub(c.edges);
    report::line("  with none: ", none);
    report::line("  differences over an edge three: ", c.edges_wrong);
    report::line("  lopsided by a mark altered: ", c.lopsided);
    report::line("  differences over lopsided marks: ", c.lopsided_wrong);
    let r = c.runs;
    report::line("  jobs in one run: ", r.jobs);
    report::line("  differences from enumeration: ", r.wrong);
    report::line("  working calls in pieces: ", r.calls);
    report::line("  calls refused in between: ", r.refused);
    report::line("  of them over an edge three: ", r.edges);
    report::line("  of them over lopsided marks: ", r.altered);
    report::line("  resumptions refused as the other kinds: ", r.others);
    report::line("  differences from one run: ", r.unlike);
}

// Every mirror grid of widths 2, 4 and 6 and heights 1 to 3: of so many cells in the left halves 3 to that power.
fn try_every() -> Counts {
    let mut c = Counts::default();
    for k in 0..9usize {
        let size = Size::new(Kind::Mirror, k % 3 * 2 + 2, k / 3 + 1);
        for number in 0..3usize.wrapping_pow((size.cells / 2 % 64) as u32) {
            let seed = c.grids.wrapping_add(1000000);
            try_grid(&Case::of_number(rule::conway(), size, seed, number), &mut c);
        }
    }
    c
}

// 300 grids of each size: widths 2, 4 and 6, heights 1 to 4. As in solver_cases over its sizes; one loop for both would have to take a closure for
// these, which is no plainer.
fn try_random(name: &str, rules: Rules) {
    let mut c = Counts::default();
    for k in 0..3600usize {
        let size = Size::new(Kind::Mirror, k / 300 % 3 * 2 + 2, k / 300 / 3 + 1);
        let seed = c.grids.wrapping_add(2000000);
        try_grid(&Case::random(rules.rule(seed), size, seed), &mut c);
    }
    print(name, c);
}

// A grid with an edge three is turned away, and enumeration finds no board; any other is run, and turned away once a mark is altered.
fn try_grid(case: &Case, c: &mut Counts) {
    let best = plain::best_board(case);
    count(&mut c.grids);
    if let Some(place) = case.edge_three() {
        count(&mut c.edges);
        if best.is_some() || !case.is_turned_away(Refusal::EdgeThree(place)) {
            case.differs("an edge three", &mut c.edges_wrong);
        }
        return;
    }
    if let Some(b) = best {
        count(&mut c.boards);
        if b.tied {
            count(&mut c.ties);
        }
    }
    try_lopsided(case, c);
    runs::try_case(case, best, &mut c.runs);
}

// The grid with one mark altered: opening and working refuse it, and both other kinds open it.
fn try_lopsided(case: &Case, c: &mut Counts) {
    let place = pseudo_random::below(case.size.cells, case.seed, 800000);
    let (lopsided, refusal) = case.altered(place);
    count(&mut c.lopsided);
    let others = [Kind::Ordinary, Kind::TwoLayers];
    if !lopsided.is_turned_away(refusal) || !others.iter().all(|kind| is_taken(&lopsided, *kind)) {
        lopsided.differs("lopsided marks", &mut c.lopsided_wrong);
    }
}

// Whether opening a job of another kind takes a grid.
fn is_taken(case: &Case, kind: Kind) -> bool {
    let size = Size::new(kind, case.size.w, case.size.h);
    Case { size, ..*case }.open().is_ok()
}
