// Jobs at the limits of width and height, their lengths written out: which numbers beside their ends resuming takes.
use crate::numbers;
use crate::numbers::Tally;
use job::Checkpoint;
use job_kind::Kind;

// A kind and a size, and its jobs' lengths where a board exists and where none does.
#[derive(Clone, Copy)]
struct Ends {
    kind: Kind,
    w: usize,
    h: usize,
    length: usize,
    none: usize,
}

pub fn try_all() {
    try_kind(
        "ordinary jobs of 10 by 60, 10 by 1, 1 by 60 and 1 by 1, numbers taken beside their ends: ",
        Kind::Ordinary,
        62914620,
        300,
    );
    try_kind(
        "jobs of two layers of the same sizes, numbers taken beside their ends: ",
        Kind::TwoLayers,
        1918894140,
        7380,
    );
    try_kind(
        "predecessor jobs of the same sizes, numbers taken beside their ends: ",
        Kind::Predecessor,
        62914620,
        300,
    );
}

// The lengths of 10 by 60 and 1 by 60 are each kind's own.
fn try_kind(name: &str, kind: Kind, wide: usize, narrow: usize) {
    let mut t = Tally::default();
    let ends = [
        (10, 60, wide, 62914561),
        (10, 1, 1048577, 1048577),
        (1, 60, narrow, 241),
        (1, 1, 5, 5),
    ];
    for (w, h, length, none) in ends {
        let x = Ends {
            kind,
            w,
            h,
            length,
            none,
        };
        try_limit(x, &mut t);
    }
    report::line(name, t.taken);
    report::line("  refused: ", (4 * 24 * 2usize).wrapping_sub(t.taken));
    report::line("  differences from the lengths: ", t.wrong);
}

// One unit before, at and after either end, under each mark and one past the last, resumed as its own kind and as another.
fn try_limit(x: Ends, t: &mut Tally) {
    let other = match x.kind {
        Kind::Ordinary => Kind::TwoLayers,
        _ => Kind::Ordinary,
    };
    for k in 0..24usize {
        let end = if k < 12 { x.length } else { x.none };
        let units = end.wrapping_add(k % 3).wrapping_sub(1);
        let mark = k / 3 % 4;
        let c = without_rows(x, units, mark);
        numbers::count(
            fits(x, units, mark),
            numbers::is_resumed_as(x.kind, c),
            c,
            t,
        );
        numbers::count(false, numbers::is_resumed_as(other, c), c, t);
    }
}

// Whether the units fit the mark, no rows being given.
fn fits(x: Ends, units: usize, mark: usize) -> bool {
    match mark {
        0 => units < x.length,
        1 => units == x.length,
        2 => units == x.none,
        _ => false,
    }
}

fn without_rows(x: Ends, units: usize, mark: usize) -> Checkpoint {
    let rule = rule::conway();
    Checkpoint {
        width: x.w,
        height: x.h,
        units,
        above: 0,
        last: 0,
        live: 0,
        mark,
        births: rule.births,
        survivals: rule.survivals,
        kind: numbers::number_of(x.kind),
    }
}
