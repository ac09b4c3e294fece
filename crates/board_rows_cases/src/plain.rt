// Rows by halving a number, written apart from the library.

// A row to write: how many binary digits its number has, its cells, how many rows are above it, and its number.
#[derive(Clone, Copy)]
pub struct Row {
    pub bits: usize,
    pub cells: usize,
    pub above: usize,
    pub number: usize,
}

impl Row {
    pub fn write(&self, board: &mut [u8]) {
        board_rows::write_row(self.bits, self.cells, self.above, self.number, board);
    }

    // The bytes that are other than they should be, once the row is written into a board of 9s.
    fn wrong_bytes(&self) -> usize {
        let mut board = [9; 64];
        self.write(&mut board);
        board
            .iter()
            .enumerate()
            .filter(|(p, byte)| **byte != self.expected(*p))
            .count()
    }

    // What place p holds then.
    fn expected(&self, p: usize) -> u8 {
        let w = self.cells;
        if w == 0 || p / w != self.above {
            return 9;
        }
        if p / w == 64 / w {
            return 9; // the row isn't whole
        }
        let k = p % w;
        let j = if k < self.bits { k } else { w - 1 - k }; // reflected
        if self.bits <= j {
            return 9; // no row here is so wide
        }
        (halved(self.number, self.bits - 1 - j) % 2) as u8
    }
}

// The bytes that are other than they should be, over all numbers below n and five rows.
pub fn wrong_numbers(bits: usize, cells: usize, n: usize) -> usize {
    let mut wrong = 0usize;
    for number in 0..n {
        for above in 0..5 {
            let row = Row {
                bits,
                cells,
                above,
                number,
            };
            wrong = wrong.wrapping_add(row.wrong_bytes());
        }
    }
    wrong
}

fn halved(number: usize, times: usize) -> usize {
    let mut x = number;
    for _ in 0..times {
        x = x / 2;
    }
    x
}
