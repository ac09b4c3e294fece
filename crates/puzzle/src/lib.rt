// What the program prints: a grid of givens as text in, its best still board as text out.
#![tactic(auto)]

ghost use Rattle.std.specs.Prelude.{◌≡◌, true, map, length};
ghost use Rattle.board.specs.Boards.{Board};
ghost use Rattle.puzzle.specs.Sizes.{output_room, program_sizes};
ghost use Rattle.puzzle.specs.Texts.{given_of};
ghost use Rattle.puzzle.specs.Answering.{SolvesGrid, AnswersText, AnswersAny};

use board::Refusal;
use job_kind::Kind;

mod printing;

// The sizes of document 01, "Plaintext boards and the program".
// "program's input over 4,096 bytes" is refused.
pub const LONGEST: usize = 4096;
// The bytes that the program asks for: one more than the longest text has, to tell a longer one.
pub const TEXT: usize = LONGEST + 1;
// "600 cells each for givens and board".
pub const CELLS: usize = 600;
// "32,768 table entries".
pub const ENTRIES: usize = 32768;
// `!`, a score of three digits and LF, and 60 rows of 10 letters and LF.
pub const OUTPUT: usize = 665;

// Solves the grid that a text holds, and writes what the program prints; answers how many bytes. Memory of other sizes than the program's: 0, as README
// promises, and nothing is written.
pub fn answer(
    text: &[u8],
    givens: &mut [u8],
    table: &mut [u16],
    board: &mut [u8],
    output: &mut [u8],
) -> usize
    ensures { AnswersAny text.now givens.old table.old board.old output.old result givens.new table.new board.new output.new }
{
    if has_sizes(givens.len(), table.len(), board.len(), output.len()) {
        answer_text(text, givens, table, board, output)
    } else {
        0
    }
}

// Whether memory has the program's sizes.
fn has_sizes(givens: usize, table: usize, board: usize, output: usize) -> bool
    ensures { result ≡ program_sizes givens table board output }
{
    if givens != CELLS {
        return false;
    }
    if table != ENTRIES {
        return false;
    }
    if board != CELLS {
        return false;
    }
    output == OUTPUT
}

// Refusals 12, then as reading and as solving.
fn answer_text(
    text: &[u8],
    givens: &mut [u8],
    table: &mut [u16],
    board: &mut [u8],
    output: &mut [u8],
) -> usize
    requires { program_sizes (length givens.old) (length table.old) (length board.old) (length output.old) ≡ true }
    ensures { AnswersText text.now givens.old table.old board.old output.old result givens.new table.new board.new output.new }
{
    if text.len() > LONGEST {
        return printing::put_refusal(Refusal::LongText, output);
    }
    match reader::read_text(text, 0, givens) {
        Err(r) => printing::put_refusal(r, output),
        Ok(size) => {
            let n = size.width * size.height;
            solve_cells(
                size.width,
                size.height,
                &mut givens[..n],
                table,
                &mut board[..n],
                output,
            )
        }
    }
}

// Solves the grid that a board's cells give, under Conway's rule, by a job of two layers: the table has room for two of up to seven columns.
fn solve_cells(
    w: usize,
    h: usize,
    cells: &mut [u8],
    table: &mut [u16],
    board: &mut [u8],
    output: &mut [u8],
) -> usize
    requires { Board w h cells.old × (length output.old ≡ output_room) }
    ensures { (cells.new ≡ map given_of cells.old) × SolvesGrid w h (map given_of cells.old) table.old board.old output.old result table.new board.new output.new }
{
    give_live(cells);
    match runner::solve(Kind::TwoLayers, rule::conway(), w, h, cells, table, board) {
        Ok(Some(score)) => printing::put_best(w, h, board, score, output),
        Ok(None) => printing::put(b"!none\n", output),
        Err(refusal) => printing::put_refusal(refusal, output),
    }
}

// Takes a board's live cells as given live, its dead cells as free.
fn give_live(cells: &mut [u8])
    ensures { cells.new ≡ map given_of cells.old }
{
    for cell in cells.iter_mut() {
        *cell = given(*cell);
    }
}

// A cell's given.
fn given(cell: u8) -> u8
    ensures { result ≡ given_of cell }
{
    if cell == 0 { 0 } else { 2 }
}
