// Tries calls, and compares what either way of filling leaves of the table.
use crate::calls::{Call, Group};
use crate::plain::Search;
use crate::{calls, memory, random};
use score_table::{Entries, Grid};

// What was tried of a group of calls.
#[derive(Clone, Copy, Default)]
struct Tally {
    calls: usize,
    changed: usize,
    // Calls that changed no entry.
    kept: usize,
    wrong: usize,
}

impl Tally {
    // A call more.
    fn add(&mut self, changed: usize, wrong: usize) {
        self.calls = self.calls.wrapping_add(1);
        self.changed = self.changed.wrapping_add(changed);
        self.kept = self.kept.wrapping_add(usize::from(changed == 0));
        self.wrong = self.wrong.wrapping_add(wrong);
    }

    fn print(self, name: &str) {
        report::line(name, self.calls);
        report::line("  entries changed: ", self.changed);
        report::line("  calls that changed none: ", self.kept);
        report::line("  differences: ", self.wrong);
    }
}

// A group of calls, each made either way over the same leftovers, in two tables.
pub fn try_group(name: &str, group: Group, calls: usize, a: &mut [u16], b: &mut [u16]) {
    let mut tally = Tally::default();
    for seed in 0..calls {
        try_call(group, seed, a, b, &mut tally);
    }
    tally.print(name);
}

// Lends as many givens and entries as the call says.
fn try_call(group: Group, seed: usize, a: &mut [u16], b: &mut [u16], tally: &mut Tally) {
    let call = calls::of_group(group, seed);
    let next = calls::patterns(group, seed);
    let givens = memory::givens(seed);
    let grid = call.grid(&next, &givens[..call.cells.min(givens.len())]);
    let places = call.places.min(a.len()).min(b.len());
    fill_both(grid, call, seed, &mut a[..places], &mut b[..places], tally);
}

// The second by the plain search where the call says so, and else entry by entry.
fn fill_both(
    grid: Grid<'_>,
    call: Call,
    seed: usize,
    a: &mut [u16],
    b: &mut [u16],
    tally: &mut Tally,
) {
    let limit = call.want.limit;
    memory::spoil(limit, seed, a);
    memory::spoil(limit, seed, b);
    layers::fill(grid, call.entries, a);
    if call.plain {
        search(grid, call, seed).fill(b);
    } else {
        score_table::fill(grid, call.entries, b);
    }
    tally.add(
        changed(limit, seed, a),
        a.iter().zip(b.iter()).filter(|(x, y)| x != y).count(),
    );
}

fn search<'a>(grid: Grid<'a>, call: Call, seed: usize) -> Search<'a> {
    Search {
        rule: memory::plain_rule(seed),
        call,
        lent: grid.givens,
    }
}

// How many entries are no longer the leftovers.
fn changed(limit: usize, seed: usize, table: &[u16]) -> usize {
    table
        .iter()
        .enumerate()
        .filter(|(k, entry)| **entry != memory::leftover(limit, seed, *k))
        .count()
}

// A whole layer of a width, in one table, since two would be more than a program's stack holds.
pub fn try_wide(name: &str, w: usize, limit: usize, seed: usize, table: &mut [u16]) {
    let mut call = calls::whole(w, board::table_size(w, 1), seed);
    call.want.limit = limit;
    let next = rule::table::conway();
    let givens = memory::givens(seed);
    let grid = call.grid(&next, &givens[..call.cells.min(givens.len())]);
    let places = call.places.min(table.len());
    fill_wide(name, grid, call, seed, &mut table[..places]);
}

fn fill_wide(name: &str, grid: Grid<'_>, call: Call, seed: usize, table: &mut [u16]) {
    memory::spoil(grid.want.limit, seed, table);
    layers::fill(grid, call.entries, table);
    let mut tally = Tally::default();
    let changed = changed(grid.want.limit, seed, table);
    tally.add(changed, differences(grid, call.entries, seed, table));
    tally.print(name);
}

// Writes each place anew, the entries of the layer one by one, and counts those that differ.
fn differences(grid: Grid<'_>, entries: Entries, seed: usize, table: &mut [u16]) -> usize {
    let mut wrong = 0usize;
    for k in 0..table.len() {
        let entry = table[k];
        write_place(grid, entries, seed, k, table);
        wrong = wrong.wrapping_add(usize::from(entry != table[k]));
    }
    wrong
}

// Writes what a place has to hold after the call: its entry in the layer, and the leftover elsewhere.
fn write_place(grid: Grid<'_>, entries: Entries, seed: usize, k: usize, table: &mut [u16]) {
    let from = k.wrapping_sub(entries.target);
    if from < entries.count {
        let one = Entries {
            from,
            count: 1,
            ..entries
        };
        score_table::fill(grid, one, table);
    } else if let Some(place) = table.get_mut(k) {
        *place = memory::leftover(grid.want.limit, seed, k);
    }
}

// Rows chosen over leftovers, each by the plain search too.
pub fn try_rows(name: &str, halves: bool, target: bool, calls: usize, table: &mut [u16]) {
    let mut tally = Tally::default();
    for seed in 0..calls {
        try_row(
            calls::searched(halves, target, seed),
            seed,
            table,
            &mut tally,
        );
    }
    report::line(name, tally.calls);
    report::line("  rows found: ", tally.changed);
    report::line("  differences: ", tally.wrong);
}

fn try_row(call: Call, seed: usize, table: &mut [u16], tally: &mut Tally) {
    let next = rule::table::of(memory::plain_rule(seed));
    let givens = memory::givens(seed);
    let grid = call.grid(&next, &givens[..call.cells.min(givens.len())]);
    let places = call.places.min(table.len());
    choose_both(grid, call, seed, &mut table[..places], tally);
}

fn choose_both(grid: Grid<'_>, call: Call, seed: usize, table: &mut [u16], tally: &mut Tally) {
    memory::spoil(call.want.limit, seed, table);
    let search = search(grid, call, seed);
    let n = search.codes();
    let r = call.height.wrapping_sub(call.entries.after).wrapping_sub(1);
    let above = random::below(n, seed, 20);
    let last = random::below(n, seed, 21);
    let chosen = score_table::choose_row(grid, r, call.entries.source, above, last, table);
    let found = search.best(r, above, last, table).map(|found| found.row);
    tally.add(usize::from(found.is_some()), usize::from(chosen != found));
}
