// Working calls, most on a grid of 2 by 2, which needs 32 entries. The table's entries are 700 and the board's bytes 9 before each call.
use crate::{jobs, ordinary};
use job::Job;
use solver::Status;

// A working call to be made on a job, lent so many entries and cells.
#[derive(Clone, Copy)]
pub struct Call {
    job: Job,
    entries: usize,
    cells: usize,
    allowance: u32,
}

pub fn lend(job: Job, entries: usize, cells: usize, allowance: u32) -> Call {
    Call {
        job,
        entries,
        cells,
        allowance,
    }
}

impl Call {
    // Makes the call, and prints how much it has written as well.
    pub fn work(self, name: &str, givens: &[u8]) {
        let mut table = [700u16; 256];
        let mut board = [9u8; 64];
        let entries = self.entries.min(256);
        let cells = self.cells.min(64);
        work_over(
            name,
            self.job,
            givens,
            &mut table[..entries],
            &mut board[..cells],
            self.allowance,
        );
        report::line("  entries written: ", count_unlike(&table, 700));
        report::line("  cells written: ", count_unlike(&board, 9));
    }
}

// Calls that are lent an entry and a cell too few as well.
pub fn jobs() {
    let grid = ordinary::wide(2);
    let wide = ordinary::wide(11);
    let filled = grid.filling(32, [0, 0, 0]);
    let barred = ordinary::with_births(grid.start(), 9);
    lend(wide.start(), 31, 3, 9).work("work, width 11, and all below", &[0, 3, 0]);
    lend(filled, 31, 3, 9).work("work, unit 32 in filling, and all below", &[0, 3, 0]);
    lend(barred, 31, 3, 9).work("work, births 9, and all below", &[0, 3, 0]);
}

pub fn givens() {
    let short = lend(ordinary::wide(2).start(), 31, 3, 9);
    short.work("work, givens 0, 3, 0 of 4, and all below", &[0, 3, 0]);
    short.work("work, 5 givens of 4", &[0, 3, 0, 0, 0]);
    short.work("work, givens 0, 3, 2, 4, and all below", &[0, 3, 2, 4]);
}

// On a grid of 3 by 2.
pub fn edge_threes() {
    let job = ordinary::wide(3).start();
    let short = lend(job, 31, 3, 9);
    short.work(
        "work, row 1 of 3 by 2 given live, 5 givens of 6, and all below",
        &[2, 2, 2, 0, 0],
    );
    short.work(
        "work, row 1 of 3 by 2 given live, a mark 3, and all below",
        &[2, 2, 2, 0, 0, 3],
    );
    short.work(
        "work, row 1 of 3 by 2 given live, and all below",
        &[2, 2, 2, 0, 0, 0],
    );
    lend(ordinary::with_births(job, 4), 31, 3, 9).work(
        "work, row 2 of 3 by 2 given live, births on 2, and all below",
        &[0, 0, 0, 2, 2, 2],
    );
    lend(ordinary::with_births(job, 9), 31, 3, 9).work(
        "work, row 1 of 3 by 2 given live, births on 0 and 3, and all below",
        &[2, 2, 2, 0, 0, 0],
    );
}

pub fn memory() {
    let job = ordinary::wide(2).start();
    lend(job, 31, 3, 9).work("work, 3 cells of 4, and 31 entries", &[0; 4]);
    lend(job, 31, 5, 9).work("work, 5 cells of 4, and 31 entries", &[0; 4]);
    lend(job, 31, 4, 9).work("work, 31 entries of 32", &[0; 4]);
}

// Calls that pass.
pub fn passes() {
    let job = ordinary::wide(2).start();
    lend(job, 32, 4, 0).work("work, allowance 0", &[0; 4]);
    lend(job, 32, 4, 9).work("work, allowance 9", &[0; 4]);
    lend(job, 40, 4, 34).work("work, allowance 34", &[0; 4]);
}

// Makes a call, and prints its answer and the job that it hands back.
pub fn work_over(
    name: &str,
    job: Job,
    givens: &[u8],
    table: &mut [u16],
    board: &mut [u8],
    allowance: u32,
) {
    let worked = solver::work(job, givens, table, board, allowance);
    report::text(name);
    match worked.status {
        Ok(Status::Unfinished) => report::text(": unfinished\n"),
        Ok(Status::Finished(score)) => report::line(": finished, score ", score),
        Ok(Status::Infeasible) => report::text(": none\n"),
        Err(r) => report::refusal(r),
    }
    jobs::print_job(worked.job);
}

// Makes a call of one unit that chooses a row, and prints how many cells it has written as well.
pub fn choose(name: &str, job: Job, givens: &[u8], table: &mut [u16]) {
    let mut board = [9u8; 64];
    let cells = givens.len().min(64);
    work_over(name, job, givens, table, &mut board[..cells], 1);
    report::line("  cells written: ", count_unlike(&board, 9));
}

// The entries of a table, or the cells of a board, that are not so.
pub fn count_unlike<T: Copy + Eq>(all: &[T], usual: T) -> usize {
    all.iter().filter(|x| **x != usual).count()
}
