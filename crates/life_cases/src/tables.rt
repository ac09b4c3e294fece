// Tables: those of pseudo-random rules against the plain count, the constants against Conway's cases, and the generator's refusals.
use crate::plain;
use board::Refusal;
use plain::{Counts, Random};
use rule::Rule;

// Tables of 400 pseudo-random rules, barred ones among them.
pub fn random_rules() {
    let mut random = Random::new();
    let mut allowed = 0usize;
    let mut wrong = 0usize;
    for _ in 0usize..400 {
        let counts = random.counts();
        if counts.is_allowed() {
            allowed = allowed.wrapping_add(1);
        }
        wrong = wrong.wrapping_add(differences(counts));
    }
    report::line("tables of 400 rules, not barred: ", allowed);
    report::line("  differences from the plain count: ", wrong);
}

// Conway's table against the constant one.
pub fn conway() {
    let constant = rule::table::conway();
    let mut table = [9; 512];
    let _ = rule::table::generate(rule::conway(), &mut table);
    report::line(
        "Conway's table, differences from the constant one: ",
        table
            .iter()
            .zip(constant.iter())
            .filter(|(a, b)| **a != **b)
            .count(),
    );
}

// The constants against Conway's cases, over all patterns.
pub fn cases() {
    let mut compared = 0usize;
    let mut wrong = 0usize;
    for (p, constant) in rule::table::conway().iter().enumerate() {
        let cells = plain::digits::<9>(p);
        if *constant != rule::next_state(cells[4], live_around(&cells)) {
            wrong = wrong.wrapping_add(1);
        }
        compared = compared.wrapping_add(1);
    }
    report::line("constants compared with Conway's cases: ", compared);
    report::line("  differences: ", wrong);
}

// The live cells of nine, without the middle one.
fn live_around(cells: &[u8; 9]) -> u8 {
    let mut live = 0u8;
    for (k, cell) in cells.iter().enumerate() {
        if k != 4 {
            live = live.wrapping_add(*cell);
        }
    }
    live
}

// How the tables of a rule differ from the plain count: wrong entries, and one more for a wrong answer.
fn differences(counts: Counts) -> usize {
    let rule = Rule::from(counts);
    let wrong = counts.wrong_entries(&rule::table::of(rule));
    let mut table = [9; 512];
    let answer = rule::table::generate(rule, &mut table);
    let (more, expected) = if counts.is_allowed() {
        (counts.wrong_entries(&table), Ok(()))
    } else {
        (plain::other_than(&table, 9), Err(Refusal::Rule))
    };
    wrong
        .wrapping_add(more)
        .wrapping_add(usize::from(answer != expected))
}

// Each refusal of the generator, 13 also with what 6 would refuse.
pub fn refused() {
    fill("table, births on 0, 511 entries", 9, 12, &mut [9; 511]);
    fill("table, births on 9, 512 entries", 520, 12, &mut [9; 512]);
    fill("table, survivals on 9, 513 entries", 8, 524, &mut [9; 513]);
    fill("table, no entry", 8, 12, &mut [9; 0]);
    fill("table, 511 entries", 8, 12, &mut [9; 511]);
    fill("table, 513 entries", 8, 12, &mut [9; 513]);
    fill("table, 512 entries", 8, 12, &mut [9; 512]);
    fill("table, all counts but births on 0", 510, 511, &mut [9; 512]);
}

// Fills entries of nines, and prints how many are no nine afterwards.
fn fill(name: &str, births: usize, survivals: usize, table: &mut [u8]) {
    report::check(
        name,
        rule::table::generate(Rule { births, survivals }, table),
    );
    report::line("  entries written: ", plain::other_than(table, 9));
}
