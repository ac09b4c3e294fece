// Spoiled tables on a grid of 2 by 3.
use crate::jobs::Grid;
use crate::rounds::ROUNDS;
use crate::workings;
use job::Job;
use job_kind::Kind;

// An ordinary job's, where the only entry that counts is (2, 3, 3): row 2 can be chosen, row 3 cannot.
pub fn calls() {
    let mut table = [65535u16; 48];
    table[31] = 0;
    let mut board = [9u8; 6];
    call("spoiled table, allowance 1", 49, 1, &mut table, &mut board);
    call("spoiled table, allowance 2", 49, 2, &mut table, &mut board);
    call(
        "spoiled table, allowance 0 before the row",
        50,
        0,
        &mut table,
        &mut board,
    );
    call(
        "spoiled table, allowance 1 before the row",
        50,
        1,
        &mut table,
        &mut board,
    );
    call("spoiled table, row 1", 48, 1, &mut table, &mut board);
    print_memory("  entries that are not none: ", &table, 65535, &board);
}

// A call on a job that chose rows 3 and 3, as far as it is.
fn call(name: &str, units: usize, allowance: u32, table: &mut [u16], board: &mut [u8]) {
    let above = if units == 50 { 3 } else { 0 };
    let last = if units == 48 { 0 } else { 3 };
    let job = Grid::new(Kind::Ordinary, 2, 3).choosing(units, [above, last, 0]);
    workings::work_over(name, job, &[0; 6], table, board, allowance);
}

// What calls left of a table whose entries were one number, and of a board.
fn print_memory(name: &str, table: &[u16], usual: u16, board: &[u8]) {
    report::line(name, workings::count_unlike(table, usual));
    report::line("  cells written: ", workings::count_unlike(board, 9));
}

// One of two layers, where every entry is 700, which counts as none. At unit 80 the last entry of layer 2 is filled again.
pub fn two_layers() {
    let mut table = [700u16; 40];
    let mut board = [9u8; 6];
    let filling = ROUNDS.filling(80, [0, 3, 2]);
    let choosing = ROUNDS.choosing(81, [0, 3, 2]);
    call_two(filling, 1, &mut table, &mut board);
    call_two(filling, 2, &mut table, &mut board);
    call_two(choosing, 0, &mut table, &mut board);
    call_two(choosing, 1, &mut table, &mut board);
    call_two(ROUNDS.choosing(48, [0, 0, 0]), 1, &mut table, &mut board);
    print_memory("  entries that are not 700: ", &table, 700, &board);
}

// Rows 1 and 3 are chosen by the layer in half 1, from place 16 on, and row 2 by that in half 0: the only entry that counts is (1, 0, 3), (2, 3, 3)
// and (3, 3, 0), first in the other half and then in its own.
pub fn halves() {
    for place in [3, 19] {
        choose(ROUNDS.choosing(48, [0, 0, 0]), place);
    }
    for place in [31, 15] {
        choose(ROUNDS.choosing(81, [0, 3, 2]), place);
    }
    for place in [12, 28] {
        choose(ROUNDS.choosing(98, [3, 3, 4]), place);
    }
}

// A call of one unit over a table whose entries are none, but for the one at a place.
fn choose(job: Job, place: usize) {
    let mut table = [65535u16; 32];
    if place < 32 {
        table[place] = 0;
    }
    let mut board = [9u8; 6];
    call_two(job, 1, &mut table, &mut board);
    print_memory("  entries that are not none: ", &table, 65535, &board);
}

fn call_two(job: Job, allowance: u32, table: &mut [u16], board: &mut [u8]) {
    workings::work_over(
        "spoiled table, two layers",
        job,
        &[0; 6],
        table,
        board,
        allowance,
    );
}
