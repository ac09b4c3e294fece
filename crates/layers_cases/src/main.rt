// Tries the filling of the score table by layers against the filling entry by entry or a plain search, and the choice of rows against that search:
// pseudo-random calls over leftovers, and every place of the table compared. Prints what was tried.
#![tactic(auto)]

mod calls;
mod fills;
mod memory;
mod plain;
mod random;

use calls::Group;

fn main() {
    let mut a = [0u16; 32776]; // two layers of width 7, and a few entries
    let mut b = [0u16; 32776];
    let mut wide = [0u16; 2097160]; // of width 10
    try_all(&mut a, &mut b, &mut wide);
}

fn try_all(a: &mut [u16], b: &mut [u16], wide: &mut [u16]) {
    try_whole_layers(a, b);
    try_other_layers(a, b);
    try_other_calls(a, b);
    try_halves(a, b);
    try_targets(a, b);
    try_wide_layers(wide);
}

fn try_whole_layers(a: &mut [u16], b: &mut [u16]) {
    fills::try_group("whole layers, Conway's rule: ", Group::Conway, 300, a, b);
    fills::try_group("whole layers, other rules: ", Group::Rules, 300, a, b);
    fills::try_group("whole layers, tables of no rule: ", Group::Bytes, 300, a, b);
    fills::try_group("whole layers, other wants: ", Group::Wants, 240, a, b);
}

fn try_other_layers(a: &mut [u16], b: &mut [u16]) {
    fills::try_group(
        "layers over the one that is read: ",
        Group::Overlapping,
        240,
        a,
        b,
    );
    fills::try_group("last layers: ", Group::Last, 120, a, b);
    fills::try_group("layers of widths 0 to 2: ", Group::Narrow, 360, a, b);
}

fn try_other_calls(a: &mut [u16], b: &mut [u16]) {
    fills::try_group("parts of layers: ", Group::Parts, 240, a, b);
    fills::try_group("calls to be refused: ", Group::Refused, 240, a, b);
}

fn try_halves(a: &mut [u16], b: &mut [u16]) {
    fills::try_group(
        "layers of halves, against a plain search: ",
        Group::Halves,
        240,
        a,
        b,
    );
    fills::try_group(
        "layers of halves to be refused: ",
        Group::HalvesRefused,
        80,
        a,
        b,
    );
    fills::try_rows(
        "rows by halves, against a plain search: ",
        true,
        false,
        240,
        a,
    );
}

fn try_targets(a: &mut [u16], b: &mut [u16]) {
    fills::try_group(
        "layers of a target, against a plain search: ",
        Group::Targets,
        240,
        a,
        b,
    );
    fills::try_rows(
        "rows of a target, against a plain search: ",
        false,
        true,
        960,
        a,
    );
    fills::try_group(
        "layers of a target by halves, against a plain search: ",
        Group::TargetHalves,
        240,
        a,
        b,
    );
    fills::try_rows(
        "rows of a target by halves, against a plain search: ",
        true,
        true,
        960,
        a,
    );
}

fn try_wide_layers(table: &mut [u16]) {
    fills::try_wide("a whole layer of width 8: ", 8, 600, 1, table);
    fills::try_wide("a whole layer of width 9: ", 9, 600, 2, table);
    fills::try_wide("a whole layer of width 10: ", 10, 600, 3, table);
    fills::try_wide(
        "a whole layer of width 10, the greatest limit: ",
        10,
        65524,
        4,
        table,
    );
}
