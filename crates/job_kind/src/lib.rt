// The kinds of job: each kind's number, how it holds rows and its table's layers, and the checks of what it is lent to be read.
#![tactic(auto)]

ghost use Rattle.std.specs.Prelude.{◌≡◌};
ghost use Rattle.board.specs.Answers.{check_says};
ghost use Rattle.job_kind.specs.Kinds.{kind_number, halves_of, refills, has_target, kind_digits, layers_of, read_check, Numbered};

use board::Refusal;
use rule::Rule;

// The kinds of job. The first two come to the same board; they differ in the table that they take, and in their length.
#[derive(Clone, Copy, Debug, PartialEq, Eq)]
pub enum Kind {
    // The whole table is filled, h layers, and then the rows are chosen.
    Ordinary,
    // The table holds two layers, which are filled again before each row.
    TwoLayers,
    // Mirror boards alone, of even widths up to 20: a row is held as its left half. The whole table is filled, as for an ordinary job.
    Mirror,
    // The boards whose next step is a target, which is lent in the givens' place, with the fewest live cells. The table is an ordinary job's.
    Predecessor,
}

// A number that no kind has.
#[derive(Clone, Copy, Debug, PartialEq, Eq)]
pub struct UnknownKind(pub usize);

// The kind with a number.
impl TryFrom<usize> for Kind {
    type Error = UnknownKind;

    ghost try_from_gives = { Numbered };

    fn try_from(number: usize) -> Result<Self, UnknownKind> {
        match number {
            0 => Ok(Kind::Ordinary),
            1 => Ok(Kind::TwoLayers),
            2 => Ok(Kind::Mirror),
            3 => Ok(Kind::Predecessor),
            _ => Err(UnknownKind(number)),
        }
    }
}

// The checks of what is lent to be read, by opening and by working: of a target 3, 4; of givens 3, 4, 14, and 15 where rows are held as their left
// halves.
#[tactic(auto, unfolding(crate::specs::Kinds::read_check))]
pub fn check_read(
    kind: Kind,
    rule: Rule,
    width: usize,
    height: usize,
    givens: &[u8],
) -> Result<(), Refusal>
    ensures { check_says result ≡ read_check kind rule width height givens.now }
{
    if kind.has_target() {
        return board::check_target(width, height, givens);
    }
    board::check_givens(width, height, givens)?;
    edges::check(rule, width, height, givens)?;
    if !kind.halves() {
        return Ok(());
    }
    mirror::check(width, height, givens)
}

impl Kind {
    // The kind's number, the tenth of a paused job.
    pub fn number(self) -> usize
        ensures { result ≡ kind_number self }
    {
        match self {
            Kind::Ordinary => 0,
            Kind::TwoLayers => 1,
            Kind::Mirror => 2,
            Kind::Predecessor => 3,
        }
    }

    // Whether a row is held as its left half.
    pub fn halves(self) -> bool
        ensures { result ≡ halves_of self }
    {
        matches!(self, Kind::Mirror)
    }

    // Whether the table holds two layers, which are filled again before each row.
    pub fn refills(self) -> bool
        ensures { result ≡ refills self }
    {
        matches!(self, Kind::TwoLayers)
    }

    // Whether a target is lent in the givens' place.
    pub fn has_target(self) -> bool
        ensures { result ≡ has_target self }
    {
        matches!(self, Kind::Predecessor)
    }

    // The binary digits of the number of a row of w cells.
    pub fn row_digits(self, w: usize) -> usize
        ensures { result ≡ kind_digits self w }
    {
        board::row_digits(self.halves(), w)
    }

    // The layers of 4 to the `row_digits` entries that the table of a grid of h rows has to have room for.
    pub fn layers(self, h: usize) -> usize
        ensures { result ≡ layers_of self h }
    {
        if self.refills() { 2 } else { h }
    }
}
