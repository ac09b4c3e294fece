// What the library answers for a grid: solved whole in one call, or in pieces.
ghost use Rattle.std.specs.Prelude.{◌≡◌, ◌↔◌, [], ◌∷◌, ℕ, Err};
ghost use Rattle.board.specs.Answers.{refuses};
ghost use Rattle.board.specs.declared.Refusal.TheVariants.{EdgeThree};
ghost use Rattle.job.specs.Jobs.{open_rule};

use crate::cells;
use crate::cells::Cells;
use board::Refusal;
use job::Stage;
use job_kind::Kind;
use rule::Rule;

// The entries of the tables: of widths up to 6, those of 6 by 3, the most of a grid tried; of greater ones, two layers of width 10.
const ENTRIES: usize = 12288;

const WIDE_ENTRIES: usize = 2097152;

// The working calls of a grid that is solved in pieces.
const PIECES: usize = 9;

// The best board's score, or none where there is no board; of the refusals a grid here may be answered 14 alone.
pub type Answer = Result<Option<usize>, Refusal>;

// How a grid is solved.
#[derive(Clone, Copy)]
pub struct Way {
    pub kind: Kind,
    pub rule: Rule,
    pub in_pieces: bool,
    pub seed: usize,
}

#[derive(Clone, Copy)]
pub struct Solution {
    pub answer: Answer,
    pub board: Cells,
}

pub fn solve(way: Way, grid: Cells) -> Solution {
    if 6 < grid.w {
        return solve_wide(way, grid);
    }
    lend(way, grid, &mut [leftover(way.seed); ENTRIES])
}

fn solve_wide(way: Way, grid: Cells) -> Solution {
    lend(way, grid, &mut [3; WIDE_ENTRIES])
}

// What the table is full of before: a number that counts, the greatest such, one that counts as none, or none.
fn leftover(seed: usize) -> u16 {
    match seed % 5 {
        0 => 3,
        1 => 0,
        2 => 600,
        3 => 601,
        _ => 65535,
    }
}

// Lends no more than is needed.
fn lend(way: Way, grid: Cells, table: &mut [u16]) -> Solution {
    let mut board = Cells {
        at: [9; cells::CELLS],
        ..grid
    };
    let n = cells::count(grid.w, grid.h);
    let t = board::table_size(grid.w, way.kind.layers(grid.h)).min(table.len());
    let givens = &grid.at[..n];
    let answer = if way.in_pieces {
        in_pieces(way, grid, givens, &mut table[..t], &mut board.at[..n])
    } else {
        runner::solve(
            way.kind,
            way.rule,
            grid.w,
            grid.h,
            givens,
            &mut table[..t],
            &mut board.at[..n],
        )
    };
    Solution { answer, board }
}

// Working calls with pseudo-random allowances, a pause and a resumption before each; the last one ends the job, or its answer is none of the above.
// Refused by 14 exactly where opening is, with the same place.
fn in_pieces(way: Way, grid: Cells, givens: &[u8], table: &mut [u16], board: &mut [u8]) -> Answer
    ensures { (place : ℕ) → result ≡ Err (EdgeThree place) ↔
        open_rule way.kind way.rule grid.w grid.h givens.now ≡ refuses 14 (place ∷ []) }
{
    let mut allowances = [u32::MAX; PIECES]; // the last one more than any job has
    for (k, allowance) in allowances.iter_mut().take(PIECES - 1).enumerate() {
        *allowance = part(table.len(), way.seed, k);
    }
    let job = job::open(way.kind, way.rule, grid.w, grid.h, givens)?;
    // A grid that was opened isn't refused later: whatever it is refused by then is none of the answers that can be the same.
    let Ok(ended) = trials::in_pieces(job, givens, table, board, &allowances) else {
        return Err(Refusal::Checkpoint);
    };
    match ended.stage {
        Stage::Finished { score, .. } => Ok(Some(score)),
        Stage::Infeasible => Ok(None),
        _ => Err(Refusal::Checkpoint),
    }
}

// None, one, or a part of the units that a table has.
fn part(entries: usize, seed: usize, k: usize) -> u32 {
    let units = match pseudo_random::below(8, seed, k.wrapping_add(1000)) {
        0 => 0,
        1 => 1,
        _ => pseudo_random::below(entries / 4 + 2, seed, k.wrapping_add(2000)),
    };
    (units % 4294967296) as u32
}

// Whether two answers are the same score, none, or refused by 14.
pub fn are_same(a: Answer, b: Answer) -> bool {
    match (a, b) {
        (Ok(best), Ok(other)) => best == other,
        (Err(Refusal::EdgeThree(_)), Err(Refusal::EdgeThree(_))) => true,
        _ => false,
    }
}

// Whether the library's judge calls a board still.
pub fn is_still(rule: Rule, board: Cells) -> bool {
    let n = cells::count(board.w, board.h);
    life::judge(rule, board.w, board.h, &board.at[..n]) == Ok(None)
}
