// Steps of a board by a plain count of neighbours, and the best still board by enumeration. A row is the number whose digits are its cells.
ghost use Rattle.std.specs.Prelude.{◌≡◌, ◌+◌, ◌*◌, ◌%◌, ◌^◌, ◌<◌, ◌≤◌, ◌-◌, true, None, All, IfSome, take, drop, fold};

use crate::Case;
use crate::marks::Masks;
use job_kind::Kind;
use rule::Rule;

// The byte of a place, 0 past the end.
pub(crate) fn at(cells: &[u8], k: usize) -> usize {
    match cells.get(k) {
        Some(cell) => *cell as usize,
        None => 0,
    }
}

// So many cells from a place on as the digits of a number. A byte of 2 or more counts as what it is, so that it shows in the number.
pub fn number_of(cells: &[u8], from: usize, n: usize) -> usize
    ensures { result ≡ fold (λ x cell. (x * 2 % 2 ^ 64 + cell) % 2 ^ 64) 0 (take n (drop from cells.now)) }
{
    cells.iter().skip(from).take(n).fold(
        0usize,
        |x, cell| x.wrapping_mul(2).wrapping_add(*cell as usize),
    )
}

// The row of a board by its number, from 1 on; the ring's, 0 and h + 1, is dead.
pub(crate) fn row_of(cells: &[u8], w: usize, h: usize, r: usize) -> usize {
    if r == 0 || h < r {
        return 0;
    }
    number_of(cells, (r - 1).wrapping_mul(w), w)
}

// The live cells among the three of a row next to column j; columns are counted from the right, the ring's first.
fn three(row: usize, j: u32) -> u32 {
    ((row << 2) >> (j % 64) & 7).count_ones()
}

// The cell of a row in column j.
fn cell(row: usize, j: u32) -> usize {
    (row << 1) >> (j % 64) & 1
}

// The next state of a cell in the middle one of three rows, in column j.
pub fn next(rule: Rule, rows: [usize; 3], j: u32) -> usize
    ensures { result < 2 }
{
    let [above, row, below] = rows;
    let centre = cell(row, j);
    let all = three(above, j)
        .wrapping_add(three(row, j))
        .wrapping_add(three(below, j));
    if centre == 0 {
        return rule.births >> (all % 64) & 1;
    }
    rule.survivals >> (all.wrapping_sub(1) % 64) & 1
}

// Whether the middle one of three rows of width w steps to a row, and the ring's cells beside it stay dead.
pub(crate) fn steps(rule: Rule, w: usize, rows: [usize; 3], to: usize) -> bool {
    let end = ((w % 64) as u32).wrapping_add(2);
    (0..end).all(|j| next(rule, rows, j) == cell(to, j))
}

// Whether the cells of a row are 0 or 1, so that its number is of these cells alone. The ring's are.
fn is_of_cells(board: &[u8], w: usize, h: usize, r: usize) -> bool
    ensures { result ≡ true → 0 < r → r ≤ h → All (λ cell. cell < 2) (take w (drop ((r - 1) * w % 2 ^ 64) board.now)) }
{
    let mut row = board.iter().skip(r.wrapping_sub(1).wrapping_mul(w)).take(w);
    r == 0 || h < r || row.all(|cell| *cell < 2)
}

// The first row, the ring's counted, in which a board does not step to a target with a dead ring, or has a byte that is no cell. Row 2 ^ 64 - 1 is never looked at.
pub fn first_unlike(rule: Rule, w: usize, h: usize, board: &[u8], target: &[u8]) -> Option<usize>
    ensures inside { IfSome result (λ r. r < h + 2) }
    ensures cells { result ≡ None → h * w < 2 ^ 64 - 1 → All (λ cell. cell < 2) (take (h * w) board.now) }
{
    let row = |r: usize| row_of(board, w, h, r);
    (0..h.saturating_add(2)).find(|r| {
        let rows = [row(r.wrapping_sub(1)), row(*r), row(r.wrapping_add(1))];
        !is_of_cells(board, w, h, *r) || !steps(rule, w, rows, row_of(target, w, h, *r))
    })
}

// What enumeration finds.
#[derive(Clone, Copy)]
pub struct Best {
    pub score: usize,
    // Its cells as digits.
    pub board: usize,
    // Another board is as good, so that the order decides.
    pub tied: bool,
}

// The first best still board that keeps the givens, of mirror jobs the first best mirror board: from the greatest number down of those whose digits
// are the rows as they are held, row 1's first, which is the greatest rows first.
pub fn best_board(case: &Case) -> Option<Best>
    ensures { IfSome result (λ b. b.score ≤ 64) }
{
    let s = case.size;
    let end = 1usize << (s.digits.wrapping_mul(s.h) % 64);
    let masks = Masks::of(&case.givens, 0, s.cells);
    let mut best: Option<Best> = None;
    for k in 0..end {
        let board = whole_board(case, end - 1 - k);
        let score = masks.score(board);
        if is_offered(best, score) && masks.keep(board) && is_still(case, board) {
            best = Some(better(best, score, board));
        }
    }
    best
}

// Whether a board of a score, where it fits, changes what was found so far.
fn is_offered(best: Option<Best>, score: usize) -> bool {
    match best {
        None => true,
        Some(b) => b.score < score || b.score == score && !b.tied,
    }
}

// The best one after another board that is as good or better.
fn better(best: Option<Best>, score: usize, board: usize) -> Best
    ensures { result.score ≡ score }
{
    match best {
        Some(b) if b.score == score => Best { tied: true, ..b },
        _ => Best {
            score,
            board,
            tied: false,
        },
    }
}

// The board whose rows, as they are held, are the digits of a number.
fn whole_board(case: &Case, number: usize) -> usize {
    let s = case.size;
    if s.kind != Kind::Mirror {
        return number;
    }
    let mut whole = 0usize;
    for k in 0..s.h {
        let after = s.digits.wrapping_mul(s.h - 1 - k);
        let row = number >> (after % 64) & s.rows.wrapping_sub(1);
        whole = (whole << (s.w % 64)).wrapping_add(s.whole(row));
    }
    whole
}

// Whether a board is still: its cells are the digits of a number. Goes from the ring's last row up to its first.
fn is_still(case: &Case, number: usize) -> bool {
    let s = case.size;
    let cells = (1usize << (s.w % 64)).wrapping_sub(1);
    let mut rest = number;
    let mut row = 0;
    let mut below = 0;
    for _ in 0..s.h.wrapping_add(2) {
        let above = rest & cells;
        rest = rest >> (s.w % 64);
        if !steps(case.rule, s.w, [above, row, below], row) {
            return false;
        }
        below = row;
        row = above;
    }
    true
}
