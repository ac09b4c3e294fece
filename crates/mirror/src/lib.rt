// Mirror boards: boards that equal their own left-right reflection. A grid whose marks don't is lopsided, and a job of mirror boards turns it away.
#![tactic(auto)]

ghost use Rattle.std.specs.Prelude.{◌≡◌, ◌<◌, length};
ghost use Rattle.board.specs.Answers.{check_says};
ghost use Rattle.mirror.specs.Mirror.{same_reflected, lopsided_check};

use board::Refusal;

// 15: each cell's mark, free counted, equals its reflection's. The place is the first cell's whose mark differs.
#[tactic(auto, unfolding(crate::specs::Mirror::lopsided_check), using(board::proofs::Search::none_steps, board::proofs::Tests::byte_none))]
pub fn check(w: usize, h: usize, givens: &[u8]) -> Result<(), Refusal>
    ensures { check_says result ≡ lopsided_check w h givens.now }
{
    if w == 0 {
        return Ok(());
    }
    for place in 0..givens.len() {
        if !is_same_reflected(w, h, givens, place) {
            return Err(Refusal::Lopsided(place));
        }
    }
    Ok(())
}

// Whether the mark at a place equals its reflection's.
fn is_same_reflected(w: usize, h: usize, givens: &[u8], place: usize) -> bool
    requires { (0 < w) × (place < length givens.now) }
    ensures { result ≡ same_reflected w h givens.now place }
{
    let r = place / w;
    let c = place % w;
    let mark = board::byte_at(givens, w, h, r + 1, c + 1);
    let reflected = board::byte_at(givens, w, h, r + 1, w - c);
    mark == reflected
}
