// Tries the writing of rows into a board: every number of up to ten binary digits, into rows of a cell and of two cells for each digit, within the
// board and past it, against cells that are found by halving. Prints what was tried.
#![tactic(auto)]

ghost use Rattle.std.specs.Prelude.{◌≤◌};

mod plain;

use plain::Row;

fn main() {
    every_number(
        "numbers, a cell for each binary digit, in five rows each: ",
        1,
    );
    every_number(
        "numbers, two cells for each binary digit, in five rows each: ",
        2,
    );
    bytes_changed("row 1 of 3 cells in a board of 6, bytes changed: ", 3, 3, 0);
    bytes_changed("row 2 of 3 cells in a board of 6, bytes changed: ", 3, 3, 1);
    bytes_changed("row 3 of 3 cells in a board of 6, bytes changed: ", 3, 3, 2);
    bytes_changed("row 2 of 4 cells in a board of 6, bytes changed: ", 4, 4, 1);
    bytes_changed("row 2^64 of 3 cells, bytes changed: ", 3, 3, usize::MAX);
    bytes_changed(
        "row 2 of 2^63 cells, bytes changed: ",
        3,
        9223372036854775808,
        1,
    );
    bytes_changed("row 1 of no cells, bytes changed: ", 3, 0, 0);
    bytes_changed(
        "row 1 of 6 cells, 100 binary digits, bytes changed: ",
        100,
        6,
        0,
    );
}

// Every number of up to ten binary digits, as a row of so many cells for each digit.
fn every_number(name: &str, cells: usize)
    requires { cells ≤ 2 }
{
    let mut tried = 0usize;
    let mut wrong = 0usize;
    for bits in 1..11 {
        let numbers = 1 << bits;
        tried = tried.wrapping_add(numbers);
        wrong = wrong.wrapping_add(plain::wrong_numbers(bits, cells * bits, numbers));
    }
    report::line(name, tried);
    report::line("  bytes other than they should be: ", wrong);
}

// Writes the row of all live cells into a board of 9s.
fn bytes_changed(name: &str, bits: usize, cells: usize, above: usize) {
    let row = Row {
        bits,
        cells,
        above,
        number: usize::MAX,
    };
    let mut board = [9; 6];
    row.write(&mut board);
    report::line(name, board.iter().filter(|byte| **byte != 9).count());
}
