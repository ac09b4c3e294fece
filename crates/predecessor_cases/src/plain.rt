// The best boards before all targets by enumeration, written apart from the library.
use rule::Rule;
use trials::plain::Best;
use trials::{Case, Size, plain};

// The boards of 4 by 4, the largest size that is enumerated.
pub const BOARDS: usize = 65536;

// The boards and the targets of a size, 2 to the number of its cells.
pub fn boards(s: Size) -> usize {
    1 << (s.cells % 64)
}

// The target of the board whose cells are the digits of a number: its cells as digits; none where a cell of the ring is born.
fn target_of(rule: Rule, s: Size, board: usize) -> Option<usize> {
    let mut target = 0usize;
    for k in 0..s.h.wrapping_add(2) {
        let rows = [
            row_of(s, board, k.wrapping_sub(1)),
            row_of(s, board, k),
            row_of(s, board, k.wrapping_add(1)),
        ];
        let cells = next_row(rule, s, rows);
        if k == 0 || s.h < k {
            if cells != 0 {
                return None;
            }
        } else {
            let inside = cells >> 1;
            if cells % 2 == 1 || inside >> (s.w % 64) != 0 {
                return None;
            }
            target = (target << (s.w % 64)).wrapping_add(inside);
        }
    }
    Some(target)
}

// The row of a board by its number, from 1 on; the ring's, 0 and h + 1, is dead.
fn row_of(s: Size, board: usize, k: usize) -> usize {
    if k == 0 || s.h < k {
        return 0;
    }
    let after = s.w.wrapping_mul(s.h - k);
    (board >> (after % 64)) & (1usize << (s.w % 64)).wrapping_sub(1)
}

// What the middle one of three rows steps to, the ring's two cells included.
fn next_row(rule: Rule, s: Size, rows: [usize; 3]) -> usize {
    let mut cells = 0usize;
    let end = ((s.w % 64) as u32).wrapping_add(2);
    for k in 0..end {
        let column = end - 1 - k;
        cells = (cells << 1).wrapping_add(plain::next(rule, rows, column));
    }
    cells
}

// Goes through the boards of a size in their order, and leaves at each target's number the first board with the fewest live cells that steps to it.
pub fn enumerate(rule: Rule, s: Size, firsts: &mut [Option<usize>]) {
    firsts.fill(None);
    for board in 0..boards(s) {
        if let Some(target) = target_of(rule, s, board) {
            if target < firsts.len() {
                firsts[target] = first_of(firsts[target], board);
            }
        }
    }
}

// The one with the fewest live cells of a board and one after it.
fn first_of(held: Option<usize>, board: usize) -> Option<usize> {
    match held {
        Some(first) if first.count_ones() <= board.count_ones() => held,
        _ => Some(board),
    }
}

// The best board before a target, from what enumeration left.
pub fn best_board(firsts: &[Option<usize>], case: &Case) -> Option<Best> {
    let target = plain::number_of(&case.givens, 0, case.size.cells);
    let board = (*firsts.get(target)?)?;
    Some(Best {
        score: board.count_ones() as usize,
        board,
        tied: false,
    })
}
