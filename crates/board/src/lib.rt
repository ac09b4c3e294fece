// What every call on a board shares: the refusals, and the checks of a size, a board, a grid of givens, a target and a table.
#![tactic(auto)]

ghost use Rattle.std.specs.Prelude.{◌≡◌, ◌*◌, eqb, length, position, nat_lt, option_to_list, Some};
ghost use Rattle.board.specs.Answers.{number_of, values_of, refusal_text, check_says};
ghost use Rattle.board.specs.Boards.{among, row_digits, width_fits, byte_at};
ghost use Rattle.board.specs.Checks.{width_check, height_check, size_check, cells_check, board_check, marks_check, givens_check, target_check, at_most, table_size_within, table_check};
ghost use Rattle.board.specs.Search.{first_not};

use std::error::Error;
use std::fmt;

// Why a call is turned away, in the order of the documents' numbers, with the first wrong place where they give one.
#[derive(Clone, Copy, Debug, PartialEq, Eq)]
pub enum Refusal {
    Width,
    Height,
    GivensLength,
    Mark(usize),
    BoardLength,
    ShortTable,
    Checkpoint,
    Letter(usize),
    SpoiledTable,
    ShortOutput,
    Cell(usize),
    LongText,
    Rule,
    EdgeThree(usize),
    Lopsided(usize),
}

// A row that is chosen, by its number, and what it earns.
#[derive(Clone, Copy, Debug, PartialEq, Eq)]
pub struct ChosenRow {
    pub row: usize,
    pub worth: usize,
}

impl Error for Refusal {}

// As programs print it: the number, and the place where there is one.
impl fmt::Display for Refusal {
    ghost output = { λ r. Some (refusal_text r) };

    fn fmt<W: fmt::Write>(&self, f: &mut fmt::Formatter<W>) -> fmt::Result {
        match self.place() {
            Some(place) => write!(f, "{} at {place}", self.number()),
            None => write!(f, "{}", self.number()),
        }
    }
}

impl Refusal {
    // The place that a refusal gives: the first wrong one, from 0.
    pub fn place(self) -> Option<usize>
        ensures { option_to_list result ≡ values_of self }
    {
        match self {
            Refusal::Mark(place)
            | Refusal::Letter(place)
            | Refusal::Cell(place)
            | Refusal::EdgeThree(place)
            | Refusal::Lopsided(place) => Some(place),
            _ => None,
        }
    }

    // The number of document 01's table; 13 is Req 02's, 14 Req 04's, 15 Req 06's.
    pub fn number(self) -> u8
        ensures { result ≡ number_of self }
    {
        match self {
            Refusal::Width => 1,
            Refusal::Height => 2,
            Refusal::GivensLength => 3,
            Refusal::Mark(_) => 4,
            Refusal::BoardLength => 5,
            Refusal::ShortTable => 6,
            Refusal::Checkpoint => 7,
            Refusal::Letter(_) => 8,
            Refusal::SpoiledTable => 9,
            Refusal::ShortOutput => 10,
            Refusal::Cell(_) => 11,
            Refusal::LongText => 12,
            Refusal::Rule => 13,
            Refusal::EdgeThree(_) => 14,
            Refusal::Lopsided(_) => 15,
        }
    }
}

// The most columns and rows of a grid.
pub const MAX_WIDTH: usize = 10;

pub const MAX_HEIGHT: usize = 60;

// The most columns where rows are held as their left halves.
pub const MAX_MIRROR_WIDTH: usize = 2 * MAX_WIDTH;

// 1: width 1 to 10. README names this function and the next: two, though they differ in a limit and a refusal alone.
pub fn check_width(w: usize) -> Result<(), Refusal>
    ensures { check_says result ≡ width_check w }
{
    if is_among(MAX_WIDTH, w) {
        Ok(())
    } else {
        Err(Refusal::Width)
    }
}

// 2: height 1 to 60.
pub fn check_height(h: usize) -> Result<(), Refusal>
    ensures { check_says result ≡ height_check h }
{
    if is_among(MAX_HEIGHT, h) {
        Ok(())
    } else {
        Err(Refusal::Height)
    }
}

// 1, 2 by how rows are held: width, 1 to 10, or even and 2 to 20 where they are held as their left halves; then height.
#[tactic(auto, unfolding(crate::specs::Checks::size_check))]
pub fn check_size(halves: bool, w: usize, h: usize) -> Result<(), Refusal>
    ensures { check_says result ≡ size_check halves w h }
{
    if w < 1 {
        return Err(Refusal::Width);
    }
    if !width_fits(halves, w) {
        return Err(Refusal::Width);
    }
    check_height(h)
}

// Whether a width is at most 10; where rows are held as their left halves, whether it is even and at most 20.
pub fn width_fits(halves: bool, w: usize) -> bool
    ensures { result ≡ width_fits halves w }
{
    if !halves {
        return w <= MAX_WIDTH;
    }
    if w % 2 != 0 {
        return false;
    }
    w <= MAX_MIRROR_WIDTH
}

// The binary digits of the number of a row of w cells; a row may be held as its left half.
pub fn row_digits(halves: bool, w: usize) -> usize
    ensures { result ≡ row_digits halves w }
{
    if halves { w / 2 } else { w }
}

// 5, 11: w × h cells, each 0 or 1.
#[tactic(auto, unfolding(crate::specs::Checks::cells_check), using(crate::proofs::Search::position_first))]
pub fn check_cells(w: usize, h: usize, cells: &[u8]) -> Result<(), Refusal>
    ensures { check_says result ≡ cells_check w h cells.now }
{
    if !has_length(cells, w, h) {
        return Err(Refusal::BoardLength);
    }
    match first_above(cells, 1) {
        Some(i) => Err(Refusal::Cell(i)),
        None => Ok(()),
    }
}

// 1, 2, 5, 11: the size, then the cells.
#[tactic(auto, unfolding(crate::specs::Checks::board_check))]
pub fn check_board(w: usize, h: usize, cells: &[u8]) -> Result<(), Refusal>
    ensures { check_says result ≡ board_check w h cells.now }
{
    check_size(false, w, h)?;
    check_cells(w, h, cells)
}

// 3, 4: w × h marks, each 0, 1 or 2. README names this function and the next: two, over one.
pub fn check_givens(w: usize, h: usize, givens: &[u8]) -> Result<(), Refusal>
    ensures { check_says result ≡ givens_check w h givens.now }
{
    check_marks(2, w, h, givens)
}

// 3, 4 of a target, which is lent in the givens' place: w × h bytes, each 0 or 1.
pub fn check_target(w: usize, h: usize, target: &[u8]) -> Result<(), Refusal>
    ensures { check_says result ≡ target_check w h target.now }
{
    check_marks(1, w, h, target)
}

// 3, 4: w × h marks, each at most a limit.
#[tactic(auto, unfolding(crate::specs::Checks::marks_check), using(crate::proofs::Search::position_first))]
fn check_marks(most: u8, w: usize, h: usize, marks: &[u8]) -> Result<(), Refusal>
    ensures { check_says result ≡ marks_check most w h marks.now }
{
    if !has_length(marks, w, h) {
        return Err(Refusal::GivensLength);
    }
    match first_above(marks, most) {
        Some(i) => Err(Refusal::Mark(i)),
        None => Ok(()),
    }
}

// The entries of a table of h layers, h × 4^w; 0 and no option where the width or the height is past its limit, as `table_size_within` promises.
pub fn table_size(w: usize, h: usize) -> usize
    ensures { result ≡ table_size_within w h }
{
    if MAX_WIDTH < w {
        return 0;
    }
    if MAX_HEIGHT < h {
        return 0;
    }
    h << (2 * w)
}

// 6: h layers of 4^w entries or more, for any w and h: the product is never formed.
pub fn check_table(w: usize, h: usize, table: &[u16]) -> Result<(), Refusal>
    ensures { check_says result ≡ table_check w h table.now }
{
    let n = table.len();
    if h == 0 {
        return Ok(());
    }
    if 31 < w {
        return Err(Refusal::ShortTable);
    }
    if n >> (2 * w) < h {
        return Err(Refusal::ShortTable);
    }
    Ok(())
}

// Whether there are w × h bytes, for any w and h: the product is never formed.
pub fn has_length(bytes: &[u8], w: usize, h: usize) -> bool
    ensures { result ≡ eqb (length bytes.now) (w * h) }
{
    let n = bytes.len();
    if w == 0 {
        return n == 0;
    }
    if n % w != 0 {
        return false;
    }
    n / w == h
}

// The byte in row r and column c, both from 1; 0 outside the rows and columns, and past the bytes: its place is never formed.
pub fn byte_at(bytes: &[u8], w: usize, h: usize, r: usize, c: usize) -> u8
    ensures { result ≡ byte_at w h bytes.now r c }
{
    if r < 1 {
        return 0;
    }
    if h < r {
        return 0;
    }
    if c < 1 {
        return 0;
    }
    if w < c {
        return 0;
    }
    let n = bytes.len();
    if n < c {
        return 0;
    }
    if (n - c) / w < r - 1 {
        return 0;
    }
    bytes[(r - 1) * w + (c - 1)]
}

// Whether a number is one of 1 to a limit.
fn is_among(limit: usize, i: usize) -> bool
    ensures { result ≡ among limit i }
{
    (1..=limit).contains(&i)
}

// The first byte above a limit.
fn first_above(bytes: &[u8], most: u8) -> Option<usize>
    ensures { result ≡ position (λ byte. nat_lt most byte) bytes.now }
{
    bytes.iter().position(|byte| most < *byte)
}
