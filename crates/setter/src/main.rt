// The setting room's program: a grid of givens as text on standard input, its best still board on standard output.
#![tactic(auto)]

ghost use Rattle.std.specs.Prelude.{◌≡◌, true, length};
ghost use Rattle.puzzle.specs.Sizes.{text_room, program_sizes};
ghost use Rattle.setter.specs.Run.{AnswersRead};

fn main() {
    let mut text = [0u8; puzzle::TEXT];
    let mut givens = [0u8; puzzle::CELLS];
    let mut table = [0u16; puzzle::ENTRIES];
    let mut board = [0u8; puzzle::CELLS];
    let mut output = [0u8; puzzle::OUTPUT];
    run(&mut text, &mut givens, &mut table, &mut board, &mut output);
}

// Reads a text, answers it, and prints the answer. The `requires` holds the arrays of `main` to the sizes of document 01.
fn run(text: &mut [u8], givens: &mut [u8], table: &mut [u16], board: &mut [u8], output: &mut [u8])
    requires { (length text.old ≡ text_room) × (program_sizes (length givens.old) (length table.old) (length board.old) (length output.old) ≡ true) }
    ensures { AnswersRead text.new givens.old table.old board.old output.old givens.new table.new board.new output.new }
{
    let n = io::read_full(0, text);
    let printed = puzzle::answer(&text[..n], givens, table, board, output);
    report::text(&output[..printed]);
}
