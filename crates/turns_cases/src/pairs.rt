// Turning twice, and turning back, on lists of distinct numbers.
use crate::cells::Cells;
use crate::eight_turns::Turn;
use crate::{cells, eight_turns};

// What was tried of a list.
#[derive(Clone, Copy, Default)]
struct Tally {
    // Pairs of turns, and the turns of the eight that give what they give.
    pairs: usize,
    alike: usize,
    // Turns with their inverses.
    inverses: usize,
    wrong: usize,
}

// The eight turns of a list.
pub fn print_turns(w: usize, h: usize) {
    let list = cells::list(w, h);
    for n in 0..8 {
        let t = eight_turns::numbered(n);
        report::text("the list");
        cells::print(list);
        eight_turns::print(t);
        report::text(":");
        cells::print(eight_turns::by_steps(t, list));
        report::text("\n");
    }
}

// All pairs of turns, and each turn with its inverse, on the list of a size.
pub fn try_list(name: &str, w: usize, h: usize) {
    let list = cells::list(w, h);
    let mut t = Tally::default();
    for n in 0..64 {
        try_pair(
            eight_turns::numbered(n / 8),
            eight_turns::numbered(n % 8),
            list,
            &mut t,
        );
    }
    for n in 0..8 {
        try_inverse(eight_turns::numbered(n), list, &mut t);
    }
    report::line(name, t.pairs);
    report::line("  turns of the eight that give the same: ", t.alike);
    report::line("  turns with their inverses: ", t.inverses);
    report::line("  differences: ", t.wrong);
}

// Turned by one turn and then by another, in both ways: the turn that `then` names gives the same.
fn try_pair(first: Turn, second: Turn, list: Cells, t: &mut Tally) {
    let once = eight_turns::then(first, second);
    let by_steps = eight_turns::by_steps(second, eight_turns::by_steps(first, list));
    let at_once = eight_turns::at_once(second, eight_turns::at_once(first, list));
    trials::count(&mut t.pairs);
    t.alike = t.alike.wrapping_add(alike(list, by_steps));
    if !is_turned(once, list, by_steps) || !is_turned(once, list, at_once) {
        trials::count(&mut t.wrong);
    }
}

// How many of the eight turns give a list.
fn alike(list: Cells, turned: Cells) -> usize {
    (0..8)
        .filter(|k| is_turned(eight_turns::numbered(*k), list, turned))
        .count()
}

// Whether a turn gives a list, in both ways.
fn is_turned(t: Turn, list: Cells, turned: Cells) -> bool {
    eight_turns::by_steps(t, list) == turned && eight_turns::at_once(t, list) == turned
}

fn try_inverse(turn: Turn, list: Cells, t: &mut Tally) {
    let back = eight_turns::inverse(turn);
    trials::count(&mut t.inverses);
    if !is_turned(back, eight_turns::by_steps(turn, list), list) {
        trials::count(&mut t.wrong);
    }
}
