// The calls of each group.
use crate::{memory, random};
use score_table::{Entries, Grid, Want};

#[derive(Clone, Copy)]
pub enum Group {
    // Whole layers apart from the ones that they read, by Conway's table of patterns, other rules' and no rule's.
    Conway,
    Rules,
    Bytes,
    // From here on by all three.
    Wants,
    // Layers that share entries with the ones that they read.
    Overlapping,
    Last,
    // Widths 0 to 2.
    Narrow,
    Parts,
    Refused,
    // Rows held as their left halves, widths 2 to 8, by rules alone; the same with a target in the givens' place; and rows of 1 to 5 cells with a target.
    Halves,
    HalvesRefused,
    TargetHalves,
    Targets,
}

#[derive(Clone, Copy)]
pub struct Call {
    pub want: Want,
    pub width: usize,
    pub height: usize,
    pub entries: Entries,
    // How many givens and places of the table are lent.
    pub cells: usize,
    pub places: usize,
    // It is compared with the plain search, and not with the filling entry by entry.
    pub plain: bool,
}

impl Call {
    // The grid that is filled, by a table of patterns and the givens that are lent.
    pub fn grid<'a>(self, next: &'a [u8; 512], givens: &'a [u8]) -> Grid<'a> {
        Grid {
            next,
            want: self.want,
            width: self.width,
            height: self.height,
            givens,
        }
    }
}

pub fn patterns(group: Group, seed: usize) -> [u8; 512] {
    match group {
        Group::Conway => rule::table::conway(),
        Group::Rules => memory::rules_of(seed),
        Group::Bytes => memory::bytes_of(seed),
        Group::Halves | Group::TargetHalves | Group::Targets => {
            rule::table::of(memory::plain_rule(seed))
        }
        _ => match seed % 3 {
            0 => rule::table::conway(),
            1 => memory::rules_of(seed),
            _ => memory::bytes_of(seed),
        },
    }
}

pub fn of_group(group: Group, seed: usize) -> Call {
    let w = 3 + seed % 5;
    let x = seed / 5;
    let q = board::table_size(w, 1);
    let any = random::below(q.wrapping_add(3), seed, 10);
    let either = if x % 3 == 0 { any } else { q };
    let call = whole(w, q.wrapping_add(x % 3), seed);
    match group {
        Group::Wants => wanting(call, x),
        Group::Overlapping => whole(w, overlap(w, q, x), seed),
        Group::Last => last(call, x),
        Group::Narrow => whole(x % 3, any % 20, seed),
        Group::Parts => part(whole(w, either, seed), q, x),
        Group::Refused => refused(call, q, x),
        Group::Halves => searched(true, false, seed),
        Group::HalvesRefused => unfit(searched(true, false, seed), x),
        Group::TargetHalves => searched(true, true, seed),
        Group::Targets => searched(false, true, seed),
        _ => call,
    }
}

// A whole layer above the last, so many entries before or after the layer that it reads. The table has none, one or two entries more at either end.
pub fn whole(width: usize, apart: usize, seed: usize) -> Call {
    let q = board::table_size(width, 1);
    let height = 2 + random::below(59, seed, 1);
    let first = random::below(3, seed, 2);
    let second = first.wrapping_add(apart);
    let down = random::below(2, seed, 3) == 0;
    let end = second.wrapping_add(q);
    Call {
        want: score_table::want_of(false, false),
        width,
        height,
        entries: Entries {
            after: 1 + random::below(height - 1, seed, 4),
            source: if down { second } else { first },
            target: if down { first } else { second },
            from: 0,
            count: q,
        },
        cells: width.wrapping_mul(height),
        places: end.wrapping_add(random::below(3, seed, 5)),
        plain: false,
    }
}

// How far apart two layers of q entries lie that share all of them, all but one, half of them, one, a row's, or any number.
fn overlap(w: usize, q: usize, x: usize) -> usize {
    match x % 6 {
        0 => 0,
        1 => 1,
        2 => q / 2,
        3 => q.wrapping_sub(1),
        4 => q.wrapping_sub(q >> (w % 8)),
        _ => random::below(q, x, 13),
    }
}

// A part of the layer: all but the last or the first entry, the last, none, or any.
fn part(mut call: Call, q: usize, x: usize) -> Call {
    let fewer = q.wrapping_sub(1);
    let more = q.wrapping_add(1);
    let any = random::below(more, x, 11);
    let (from, count) = match x % 8 {
        0 => (0, fewer),
        1 => (1, fewer),
        2 => (fewer, 1),
        3 => (any, 0),
        _ => (any, random::below(more.wrapping_sub(any), x, 12)),
    };
    call.entries.from = from;
    call.entries.count = count;
    call
}

// The last layer, which reads none.
fn last(mut call: Call, x: usize) -> Call {
    call.entries.after = 0;
    if x % 2 == 0 {
        call.entries.source = usize::MAX;
    }
    call
}

// Other wants; none of them is refused.
fn wanting(mut call: Call, x: usize) -> Call {
    call.want.least = x % 8 < 3;
    call.want.greater_first = x / 8 % 2 == 0;
    call.want.limit = match x % 8 {
        1 | 3 => 65524,
        2 | 4 => 0,
        5 => 599,
        6 => 65534 - call.width % 16, // the greatest that is taken
        _ => 600,
    };
    call
}

// A whole layer to be compared with the plain search, by any want; of some calls the last layer, and with a target of some the first.
pub fn searched(halves: bool, target: bool, seed: usize) -> Call {
    let x = seed / 5;
    let bits = if halves { 1 + seed % 4 } else { 1 + seed % 5 };
    let mut call = whole(bits, board::table_size(bits, 1).wrapping_add(x % 3), seed);
    if halves {
        call.width = 2 * bits;
    }
    call.cells = call.width.wrapping_mul(call.height);
    call.want.halves = halves;
    call.want.predecessor = target;
    call.plain = true;
    if x % 4 == 0 {
        call.entries.after = 0;
    }
    let call = wanting(call, x);
    if target { aimed(call, x) } else { call }
}

// With a target: the least sums are wanted as often as the greatest, and of some calls the layer is the first.
fn aimed(mut call: Call, x: usize) -> Call {
    call.want.least = x / 16 % 2 == 0;
    if x % 4 == 1 {
        call.entries.after = call.height.wrapping_sub(1);
    }
    call
}

// One that has to write nothing: an odd width, one past 20, a layer of the whole width, or a number that could be taken for none.
fn unfit(mut call: Call, x: usize) -> Call {
    call.plain = false;
    match x % 4 {
        0 => {
            call.width = call.width.wrapping_add(1);
            call.cells = call.width.wrapping_mul(call.height);
        }
        1 => {
            call.width = 22;
            call.height = 30;
            call.cells = 660;
        }
        2 => call.entries.count = board::table_size(call.width, 1),
        _ => call.want.limit = 65535 - call.width % 16,
    }
    call
}

// A call that has to write nothing.
fn refused(mut call: Call, q: usize, x: usize) -> Call {
    match x % 16 {
        0 => {
            call.width = 11;
            call.cells = call.height.wrapping_mul(11);
        }
        1 => {
            call.width = 9223372036854775808; // no cells by the product, which wraps
            call.height = 2;
            call.entries.after = 1;
            call.cells = 0;
        }
        2 => {
            call.height = 0;
            call.entries.after = 0;
            call.cells = 0;
        }
        3 => {
            call.height = 61;
            call.cells = call.width.wrapping_mul(61);
        }
        4 => call.entries.after = call.height,
        5 => call.cells = call.cells.wrapping_sub(1),
        6 => call.cells = call.cells.wrapping_add(1),
        7 => call.entries.count = q.wrapping_add(1),
        8 => call.entries.from = 1,
        9 => {
            let later = call.entries.source.max(call.entries.target);
            call.places = later.wrapping_add(q).wrapping_sub(1);
        }
        10 => call.want.limit = 65535 - call.width % 16, // a number could be taken for none
        11 => call.want.limit = usize::MAX,
        12 => call.entries.target = usize::MAX,
        13 => call.entries.source = usize::MAX,
        14 => call.entries.from = usize::MAX,
        _ => call.entries.count = usize::MAX,
    }
    call
}
