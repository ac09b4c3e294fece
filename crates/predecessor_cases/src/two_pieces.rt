// Jobs over a table that is too large for the memory, in two pieces.
use board::Refusal;
use job::Job;
use trials::{CELLS, Case};

// A job after its calls, and the board; a byte that is not written is 9.
#[derive(Clone, Copy)]
pub struct Ended {
    pub job: Job,
    pub board: [u8; CELLS],
}

// Runs a case over what the table holds, with a pause and a resumption in the middle of its filling. No more is lent than the job needs.
pub fn run(case: &Case, table: &mut [u16]) -> Result<Ended, Refusal> {
    let s = case.size;
    let mut board = [9u8; CELLS];
    let n = s.cells.min(CELLS);
    let entries = s.room.min(table.len());
    let half = (s.entries / 2 % 4294967296) as u32;
    let job = trials::in_pieces(
        case.open()?,
        &case.givens[..n],
        &mut table[..entries],
        &mut board[..n],
        &[half, u32::MAX],
    )?;
    Ok(Ended { job, board })
}
