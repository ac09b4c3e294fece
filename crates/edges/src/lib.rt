// Edge threes: three cells given live in a line along an edge of a grid. Under a rule with birth on 3 the dead cell outside, beside the middle one,
// is born, so no still board keeps them, and a job turns such a grid away.
#![tactic(auto)]

ghost use Rattle.std.specs.Prelude.{◌≡◌, ◌&&◌, ◌<◌, ◌≤◌, length};
ghost use Rattle.board.specs.Answers.{check_says};
ghost use Rattle.edges.specs.Edges.{given_live_at, at_edge, edge_three, edge_check};

use board::Refusal;
use rule::Rule;

// 14: under a rule with birth on 3, no cell is the middle of an edge three. The place is the first such cell's.
#[tactic(auto, unfolding(crate::specs::Edges::edge_check), using(board::proofs::Search::none_steps, crate::proofs::Edges::middle_none))]
pub fn check(rule: Rule, w: usize, h: usize, givens: &[u8]) -> Result<(), Refusal>
    ensures { check_says result ≡ edge_check rule w h givens.now }
{
    if rule.births / 8 % 2 != 1 {
        return Ok(());
    }
    if w == 0 {
        return Ok(());
    }
    for place in 0..givens.len() {
        if is_edge_three(w, h, givens, place / w + 1, place % w + 1) {
            return Err(Refusal::EdgeThree(place));
        }
    }
    Ok(())
}

// Whether the cell in row r and column c, both from 1, is the middle of an edge three.
#[tactic(auto, unfolding(crate::specs::Edges::edge_three))]
fn is_edge_three(w: usize, h: usize, givens: &[u8], r: usize, c: usize) -> bool
    requires { (0 < r) × (r ≤ length givens.now) × (0 < c) × (c ≤ length givens.now) }
    ensures { result ≡ edge_three w h givens.now r c }
{
    (are_along(w, h, givens, h, r, r, c - 1, r, c + 1)
        || are_along(w, h, givens, w, c, r - 1, c, r + 1, c))
        && is_given_live(w, h, givens, r, c)
}

// Whether row or column i of n is an edge and two cells, in rows r and r2 and columns c and c2, are given live.
fn are_along(
    w: usize,
    h: usize,
    givens: &[u8],
    n: usize,
    i: usize,
    r: usize,
    c: usize,
    r2: usize,
    c2: usize,
) -> bool
    ensures { result ≡ (at_edge n i && given_live_at w h givens.now r c && given_live_at w h givens.now r2 c2) }
{
    is_edge(n, i) && is_given_live(w, h, givens, r, c) && is_given_live(w, h, givens, r2, c2)
}

// Whether row or column i is the first or the last of n.
fn is_edge(n: usize, i: usize) -> bool
    ensures { result ≡ at_edge n i }
{
    i == 1 || i == n
}

// Whether the cell in row r and column c, both from 1, is given live. No cell outside the grid is, and none past the givens.
#[tactic(auto, unfolding(crate::specs::Edges::given_live_at))]
fn is_given_live(w: usize, h: usize, givens: &[u8], r: usize, c: usize) -> bool
    ensures { result ≡ given_live_at w h givens.now r c }
{
    board::byte_at(givens, w, h, r, c) == 2
}
