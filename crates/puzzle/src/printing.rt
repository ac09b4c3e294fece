// What is printed, piece by piece, at the start of the output.
ghost use Rattle.std.specs.Prelude.{◌≡◌, ◌+◌, ◌≤◌, ◌<◌, length};
ghost use Rattle.board.specs.Boards.{Board};
ghost use Rattle.board.specs.Answers.{number_of};
ghost use Rattle.puzzle.specs.Sizes.{output_room};
ghost use Rattle.puzzle.specs.Printing.{decimal, line, refused_line, best_text, Prints};

use board::Refusal;

// `!` and the score, then the board.
pub fn put_best(w: usize, h: usize, board: &[u8], score: usize, output: &mut [u8]) -> usize
    requires { Board w h board.now × (score < 1000) × (length output.old ≡ output_room) }
    ensures { Prints (best_text score w h board.now) output.old result output.new }
{
    let from = put_line(b"!", score, output);
    // Never refused: there is room for the text.
    from + writer::write(w, h, board, &mut output[from..]).unwrap_or(0)
}

// `!refused ` and the number.
pub fn put_refusal(r: Refusal, output: &mut [u8]) -> usize
    requires { 13 ≤ length output.old }
    ensures { Prints (refused_line (number_of r)) output.old result output.new }
{
    put_line(b"!refused ", r.number() as usize, output)
}

// A line: some words, a number below 1,000 and LF.
fn put_line(words: &[u8], number: usize, output: &mut [u8]) -> usize
    requires { (number < 1000) × (length words.now + 4 ≤ length output.old) }
    ensures { Prints (line words.now number) output.old result output.new }
{
    let from = put(words, output);
    let end = from + put_number(number, &mut output[from..]);
    output[end] = b'\n';
    end + 1
}

pub fn put(bytes: &[u8], output: &mut [u8]) -> usize
    requires { length bytes.now ≤ length output.old }
    ensures { Prints bytes.now output.old result output.new }
{
    output[..bytes.len()].copy_from_slice(bytes);
    bytes.len()
}

// A number below 1,000 in decimal. Not by `write!`: its contract doesn't say when it succeeds.
#[tactic(auto, using(crate::proofs::Pieces::decimal_std, crate::proofs::Pieces::std_short))]
fn put_number(number: usize, output: &mut [u8]) -> usize
    requires { (number < 1000) × (3 ≤ length output.old) }
    ensures { Prints (decimal number) output.old result output.new }
{
    put(itoa::Buffer::new().format(number).as_bytes(), output)
}
