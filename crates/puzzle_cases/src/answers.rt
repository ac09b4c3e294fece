// A text's answer, in memory that holds what no answer writes.
ghost use Rattle.std.specs.Prelude.{◌≤◌};

use crate::judge;
use crate::judge::Size;
use std::fmt::{Display, Write};

// A text, its answer in memory of the program's sizes, and how much was written.
pub fn show<D: Display + Drop>(name: D, text: &[u8], judged: Option<Size>) {
    show_in::<D, { puzzle::ENTRIES }, { puzzle::OUTPUT }>(name, text, judged);
}

// The same in a table and an output of other sizes. Where the board is judged, only the first line of the answer is printed.
// The `requires` holds the arrays to a size that memory has room for.
pub fn show_in<D: Display + Drop, const ENTRIES: usize, const OUTPUT: usize>(
    name: D,
    text: &[u8],
    judged: Option<Size>,
)
    requires { (ENTRIES ≤ 32768) × (OUTPUT ≤ 666) }
{
    let mut givens = [9u8; puzzle::CELLS];
    let mut table = [700u16; ENTRIES];
    let mut board = [9u8; puzzle::CELLS];
    let mut output = [9u8; OUTPUT];
    let n = puzzle::answer(text, &mut givens, &mut table, &mut board, &mut output);
    let _ = writeln!(report::Output, "{name}:");
    print(&output[..n.min(OUTPUT)], judged);
    let _ = writeln!(
        report::Output,
        "  answered {n}; written: bytes {}, entries {}, givens {}, cells {}",
        unlike(&output, 9),
        unlike(&table, 700),
        unlike(&givens, 9),
        unlike(&board, 9),
    );
}

fn print(answer: &[u8], judged: Option<Size>) {
    match judged {
        None => {
            io::write_all(1, answer);
        }
        Some(size) => {
            for line in answer.split_inclusive(|b| *b == b'\n').take(1) {
                io::write_all(1, line);
            }
            judge::print(size, answer);
        }
    }
}

// How many of the memory's values are not as lent.
fn unlike<T: PartialEq + Copy>(memory: &[T], lent: T) -> usize {
    memory.iter().filter(|x| **x != lent).count()
}
