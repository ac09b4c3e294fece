// A unit of a job by the documents, written apart from the library.
use crate::marks::Masks;
use crate::memory::Memory;
use crate::{Case, Size, memory, plain};
use job::{Checkpoint, Job, Stage};
use job_kind::Kind;
use rule::Rule;

// What units left of a job's numbers and of the memory, and whether they met a row after row 1 that could not be chosen.
#[derive(Clone, Copy)]
pub(crate) struct Ran {
    pub(crate) numbers: Checkpoint,
    pub(crate) memory: Memory,
    pub(crate) is_spoiled: bool,
}

// Units until the allowance is spent, the job ends, or no row can be chosen.
pub(crate) fn work(case: &Case, start: Checkpoint, memory: Memory, allowance: u32) -> Ran {
    let mut table = memory.table;
    let mut board = memory.board;
    let mut numbers = start;
    let mut is_spoiled = false;
    for _ in 0..allowance {
        if numbers.mark != 0 {
            break;
        }
        if case.size.left(numbers.units) != 0 {
            numbers = fill(case, numbers, &mut table);
        } else if let Some(next) = choose(case, numbers, &table, &mut board) {
            numbers = next;
        } else {
            is_spoiled = true;
            break;
        }
    }
    Ran {
        numbers,
        memory: Memory { table, board },
        is_spoiled,
    }
}

// Layers from the last one up; in a layer a rises, then b.
fn fill(case: &Case, c: Checkpoint, table: &mut [u16]) -> Checkpoint {
    let s = case.size;
    let rows = s.rows.max(1);
    let since_row = c.units.wrapping_sub(s.until_row(s.chosen(c.units)));
    let i = s.h.wrapping_sub(since_row / rows / rows);
    let a = since_row / rows % rows;
    let b = since_row % rows;
    let entry = entry_of(case, i, a, b, table);
    let place = place_of(s, i, a, b);
    if place < table.len() {
        table[place] = (entry % 65536) as u16;
    }
    Checkpoint {
        units: c.units.wrapping_add(1),
        ..c
    }
}

// An entry of layer i.
fn entry_of(case: &Case, i: usize, a: usize, b: usize, table: &[u16]) -> usize {
    let s = case.size;
    if i == s.h {
        let row = s.whole(b);
        let ends = plain::steps(case.rule, s.w, [s.whole(a), row, 0], wanted(case, i, row))
            && plain::steps(case.rule, s.w, [row, 0, 0], 0);
        return if ends { 0 } else { 65535 };
    }
    match best_below(case, i.wrapping_add(1), a, b, table) {
        Some(best) => best.sum,
        None => 65535,
    }
}

// What row i has to step to: of still boards itself, and of a target's its own row i; row 0 is the ring's.
fn wanted(case: &Case, i: usize, row: usize) -> usize {
    if case.size.kind == Kind::Predecessor {
        plain::row_of(&case.givens, case.size.w, case.size.h, i)
    } else {
        row
    }
}

// Row k, the first that has none. Where none can be chosen, the job ends at row 1, and otherwise stands before the row.
fn choose(case: &Case, c: Checkpoint, table: &[u16], board: &mut [u8]) -> Option<Checkpoint> {
    let s = case.size;
    let before = s.chosen(c.units);
    let units = c.units.wrapping_add(1);
    match best_below(case, before.wrapping_add(1), c.above, c.last, table) {
        None if before == 0 => Some(Checkpoint {
            units,
            mark: 2,
            ..c
        }),
        None => None,
        Some(best) => {
            write_row(board, before.wrapping_mul(s.w), s.w, s.whole(best.row));
            Some(Checkpoint {
                units,
                above: c.last,
                last: best.row,
                live: c.live.wrapping_add(best.score),
                mark: if before.wrapping_add(1) == s.h { 1 } else { 0 },
                ..c
            })
        }
    }
}

fn write_row(board: &mut [u8], from: usize, w: usize, row: usize) {
    let mut rest = row;
    for k in 0..w {
        let place = from.wrapping_add(w - 1 - k);
        if place < board.len() {
            board[place] = (rest % 2) as u8;
        }
        rest = rest / 2;
    }
}

// A row below two others, as it is held, what it scores, and that with its entry.
#[derive(Clone, Copy)]
struct Below {
    row: usize,
    score: usize,
    sum: usize,
}

// The best row k below a over b, where the entry counts, the givens are kept, and the row above it steps to what is wanted: the greatest sum, and
// among equals the greatest row; of predecessors the least, and the smallest.
fn best_below(case: &Case, k: usize, a: usize, b: usize, table: &[u16]) -> Option<Below> {
    let s = case.size;
    let least = s.kind == Kind::Predecessor;
    let above = s.whole(a);
    let middle = s.whole(b);
    let to = wanted(case, k.wrapping_sub(1), middle);
    let masks = if least {
        Masks::free()
    } else {
        Masks::of(&case.givens, k.wrapping_sub(1).wrapping_mul(s.w), s.w)
    };
    let mut best: Option<Below> = None;
    for d in 0..s.rows {
        let row = if least { d } else { s.rows - 1 - d };
        let whole = s.whole(row);
        let entry = table
            .get(place_of(s, k, b, row))
            .map_or(65535, |entry| *entry as usize);
        let is_counted = entry <= memory::most(s.kind) && masks.keep(whole);
        if is_counted && plain::steps(case.rule, s.w, [above, middle, whole], to) {
            let score = masks.score(whole);
            let sum = score.wrapping_add(entry);
            if is_better(least, sum, best) {
                best = Some(Below { row, score, sum });
            }
        }
    }
    best
}

fn is_better(least: bool, sum: usize, best: Option<Below>) -> bool {
    match best {
        None => true,
        Some(b) => { if least { sum < b.sum } else { b.sum < sum } }
    }
}

// Where layer i keeps the entry of a over b.
fn place_of(s: Size, i: usize, a: usize, b: usize) -> usize {
    let layers = match s.kind {
        Kind::TwoLayers => i % 2,
        _ => i.wrapping_sub(1),
    };
    layers
        .wrapping_mul(s.layer)
        .wrapping_add(a.wrapping_mul(s.rows))
        .wrapping_add(b)
}

// The job of these numbers.
pub(crate) fn job_of(s: Size, c: Checkpoint) -> Job {
    let above = c.above;
    let last = c.last;
    let live = c.live;
    Job {
        kind: s.kind,
        rule: Rule {
            births: c.births,
            survivals: c.survivals,
        },
        width: c.width,
        height: c.height,
        units: c.units,
        stage: match c.mark {
            1 => Stage::Finished {
                above,
                last,
                score: live,
            },
            2 => Stage::Infeasible,
            _ if s.left(c.units) != 0 => Stage::Filling { above, last, live },
            _ => Stage::Choosing { above, last, live },
        },
    }
}
