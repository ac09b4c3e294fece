// Working calls over parts of the memory, and their answers.
use crate::memory::Memory;
use crate::plain::Best;
use crate::{Case, Size};
use board::Refusal;
use job::Job;
use solver::Status;

// How much of the memory a working call is lent: the first places of the givens, the table and the board.
#[derive(Clone, Copy)]
pub(crate) struct Lent {
    pub(crate) givens: usize,
    pub(crate) table: usize,
    pub(crate) board: usize,
}

impl Lent {
    // What a call of a size is lent, with so many entries to spare.
    pub(crate) fn with_spare(s: Size, spare: usize) -> Lent {
        Lent {
            givens: s.cells,
            table: s.room.wrapping_add(spare),
            board: s.cells,
        }
    }

    pub(crate) fn exact(s: Size) -> Lent {
        Lent::with_spare(s, 8)
    }
}

// A working call's answer, and the memory that it leaves.
#[derive(Clone, Copy)]
pub struct After {
    pub status: Result<Status, Refusal>,
    pub job: Job,
    pub memory: Memory,
}

pub(crate) fn work(case: &Case, job: Job, lent: Lent, memory: Memory, allowance: u32) -> After {
    let mut table = memory.table;
    let mut board = memory.board;
    let g = lent.givens.min(case.givens.len());
    let t = lent.table.min(table.len());
    let b = lent.board.min(board.len());
    let worked = solver::work(
        job,
        &case.givens[..g],
        &mut table[..t],
        &mut board[..b],
        allowance,
    );
    After {
        status: worked.status,
        job: worked.job,
        memory: Memory { table, board },
    }
}

// A call that is to be refused.
#[derive(Clone, Copy)]
pub(crate) struct Call {
    pub(crate) case: Case,
    pub(crate) job: Job,
    pub(crate) lent: Lent,
    pub(crate) refusal: Refusal,
}

// Whether it is, with the job handed back and nothing written.
pub(crate) fn is_refused(call: &Call, memory: &Memory) -> bool {
    let r = work(&call.case, call.job, call.lent, *memory, 1000);
    r.status == Err(call.refusal) && is_unaltered(call.job, memory, &r)
}

// Whether a working call handed back its job and its memory as they were.
pub(crate) fn is_unaltered(job: Job, memory: &Memory, r: &After) -> bool {
    r.job == job && r.memory == *memory
}

// What enumeration finds as the end of a job.
pub(crate) fn end_of(best: Option<Best>) -> Status {
    match best {
        Some(b) => Status::Finished(b.score),
        None => Status::Infeasible,
    }
}

// A job's length in units, by what enumeration finds, and the cells that it writes.
pub(crate) fn length(s: Size, best: Option<Best>) -> usize {
    if best.is_some() {
        s.length
    } else {
        s.none_length
    }
}

pub(crate) fn written(s: Size, best: Option<Best>) -> usize {
    if best.is_some() { s.cells } else { 0 }
}
