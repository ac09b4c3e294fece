// The memory that calls are lent: leftovers to start with, and what a call left of them.
ghost use Rattle.std.specs.Prelude.{◌≤◌};

use crate::{CELLS, Case, Size, plain};
use job_kind::Kind;

// The entries of the memory, more than any size tried needs but 9 by 1, which is refused by 6.
pub(crate) const ENTRIES: usize = 1100;

#[derive(Clone, Copy, PartialEq, Eq)]
pub struct Memory {
    pub table: [u16; ENTRIES],
    pub board: [u8; CELLS],
}

impl Memory {
    // Leftovers alone, by a case's seed.
    pub(crate) fn spoiled(case: &Case) -> Memory {
        let mut table = [0u16; ENTRIES];
        let mut board = [0u8; CELLS];
        for (k, entry) in table.iter_mut().enumerate() {
            *entry = leftover(case.size.kind, case.seed, k);
        }
        for (k, cell) in board.iter_mut().enumerate() {
            *cell = leftover_cell(case.seed, k);
        }
        Memory { table, board }
    }

    // Whether a job wrote nothing but its entries and so many cells, over a case's leftovers.
    pub(crate) fn is_kept(&self, case: &Case, cells: usize) -> bool {
        let s = case.size;
        let before = Memory::spoiled(case);
        let first = s.first.min(ENTRIES);
        let room = s.room.min(ENTRIES);
        let written = cells.min(CELLS);
        &self.table[..first] == &before.table[..first]
            && &self.table[room..] == &before.table[room..]
            && &self.board[written..] == &before.board[written..]
    }

    // Whether the entries that a job of a size writes and the first cells are the same.
    pub(crate) fn is_written_as(&self, other: &Memory, s: Size, cells: usize) -> bool {
        let room = s.room.min(ENTRIES);
        let first = s.first.min(room);
        let written = cells.min(CELLS);
        &self.table[first..room] == &other.table[first..room]
            && &self.board[..written] == &other.board[..written]
    }

    // Whether the first n cells are the digits of a number.
    pub(crate) fn is_board(&self, n: usize, number: usize) -> bool {
        plain::number_of(&self.board, 0, n) == number
            && self.board.iter().take(n).all(|cell| *cell < 2)
    }
}

// The greatest entry that counts.
pub(crate) fn most(kind: Kind) -> usize
    ensures { (600 ≤ result) × (result ≤ 1200) }
{
    if kind == Kind::Mirror { 1200 } else { 600 }
}

// An entry before any call: a number that counts, one of the greatest such, one that counts as none, or none.
fn leftover(kind: Kind, seed: usize, k: usize) -> u16 {
    let x = pseudo_random::below(536870912, seed, k);
    let most = most(kind);
    let entry = match x % 16 {
        0..=1 => 65535,
        2 => most + 1 + x / 16 % (65535 - most),
        3 => most + 1,
        4 => most,
        7..=8 if kind == Kind::Predecessor => most - 3 + x / 16 % 4,
        5..=7 => x / 16 % 4,
        _ => x / 16 % (most + 1),
    };
    (entry % 65536) as u16
}

// A cell before any call: no state.
fn leftover_cell(seed: usize, k: usize) -> u8 {
    (pseudo_random::below(254, seed, k.wrapping_add(100000)) % 254 + 2) as u8
}
