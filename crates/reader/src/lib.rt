// A reader of plaintext boards: the caller's bytes and the place in them where a text starts.
#![tactic(auto)]

ghost use Rattle.std.specs.Prelude.{◌≡◌};
ghost use Rattle.plaintext.specs.Reading.{ReadsText};

use board::Refusal;
use plaintext::Size;

#[derive(Clone, Copy)]
pub struct Reader<'a> {
    pub text: &'a [u8],
    pub at: usize,
}

// A reader that stands at a place of the bytes, at or past their end too.
pub fn new(text: &[u8], at: usize) -> Reader<'_>
    ensures { (result.text ≡ text.entry) × (result.at ≡ at) }
{
    Reader { text, at }
}

// Reads the board that stands from the reader's place on, into the first cells. Refusals 8, 2, 1, 5.
pub fn read(r: Reader<'_>, cells: &mut [u8]) -> Result<Size, Refusal>
    ensures { ReadsText r.entry.text.now r.entry.at cells.old cells.new result }
{
    plaintext::read_at(r.text, r.at, cells)
}

// The same of bytes and a place, through a reader made here: for callers that hold no reader.
pub fn read_text(text: &[u8], at: usize, cells: &mut [u8]) -> Result<Size, Refusal>
    ensures { ReadsText text.now at cells.old cells.new result }
{
    read(new(text, at), cells)
}
