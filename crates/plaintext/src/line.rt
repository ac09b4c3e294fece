// The lines of a text, one after the other, and what each is.
ghost use Rattle.std.specs.Prelude.{◌≡◌, ◌+◌, ◌<◌, ◌^◌, ◌==◌, not, length, position};
ghost use Rattle.writer.specs.Letters.{LF, is_letter};
ghost use Rattle.plaintext.specs.Reading.{is_comment, without_cr, judged};

use board::Refusal;

// A line of a text: its place, its bytes without LF, and whether an LF ends it.
#[derive(Clone, Copy)]
pub struct Line<'a> {
    pub from: usize,
    pub bytes: &'a [u8],
    pub ended: bool,
    // So that the place of a byte in it fits.
    pub ghost fits: { from + length bytes.now < 2 ^ 64 },
}

impl<'a> Line<'a> {
    ghost use Rattle.plaintext.specs.Scanning.{line_of, StartsAt, judged_line, Told};

    // The line that starts at a place: up to its LF, or to the end of the text.
    fn at(text: &'a [u8], from: usize) -> Line<'a>
        requires { from < length text.now }
        ensures { StartsAt text.now from result }
    {
        let rest = &text[from..];
        let length = first_lf(rest).unwrap_or(rest.len());
        Line {
            from,
            bytes: &rest[..length],
            ended: length < rest.len(),
        }
    }

    // The letters of the row that the line is; none where it is a comment. Refusal 8, with the place of the first byte that isn't allowed.
    #[tactic(auto, unfolding(crate::specs::Reading::judge), using(crate::proofs::Lines::first_other_is))]
    pub fn row(self) -> Result<Option<&'a [u8]>, Refusal>
        ensures { Told result (judged_line self.entry) }
    {
        if self.is_comment() {
            return Ok(None);
        }
        let row = self.without_cr();
        match first_other(row) {
            Some(place) => Err(Refusal::Letter(self.from + place)),
            None => Ok(Some(row)),
        }
    }

    fn is_comment(self) -> bool
        ensures { result ≡ is_comment self.entry.bytes.now }
    {
        matches!(self.bytes, [b'!', ..])
    }

    // The bytes of the row: one CR just before LF is dropped.
    fn without_cr(self) -> &'a [u8]
        ensures { result.now ≡ without_cr (line_of self.entry) }
    {
        match self.bytes {
            [row @ .., b'\r'] if self.ended => row,
            row => row,
        }
    }
}

// The lines of a text from a place on.
#[derive(Drop)]
pub struct Lines<'a> {
    pub text: &'a [u8],
    pub at: usize,
}

impl<'a> Lines<'a> {
    ghost use Rattle.plaintext.specs.Scanning.{judged_left};

    pub fn new(text: &'a [u8], at: usize) -> Lines<'a>
        ensures { judged_left result ≡ judged text.now at }
    {
        Lines { text, at }
    }
}

impl<'a> Iterator for Lines<'a> {
    ghost use Rattle.std.specs.Iterator.{item_count};
    ghost use Rattle.plaintext.specs.Scanning.{judged_left, GivesLine};

    type Item = Line<'a>;

    ghost next_gives = { GivesLine };

    ghost remaining = { item_count judged_left };

    fn next(&mut self) -> Option<Line<'a>> {
        if self.text.len() <= self.at {
            return None;
        }
        let line = Line::at(self.text, self.at);
        self.at = line.from + line.bytes.len() + 1;
        Some(line)
    }
}

// The place of the first LF.
fn first_lf(text: &[u8]) -> Option<usize>
    ensures { result ≡ position (λ b. b == LF) text.now }
{
    text.iter().position(|byte| *byte == b'\n')
}

// The place of the first byte that is no letter.
fn first_other(row: &[u8]) -> Option<usize>
    ensures { result ≡ position (λ b. not (is_letter b)) row.now }
{
    row.iter().position(|byte| !is_letter(*byte))
}

fn is_letter(b: u8) -> bool
    ensures { result ≡ is_letter b }
{
    matches!(b, b'.' | b'O')
}
