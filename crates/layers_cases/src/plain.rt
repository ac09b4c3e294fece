// A plain search over rows: every number of a row, its row cell by cell, and what a row's cells become by a count of neighbours.
ghost use Rattle.std.specs.Prelude.{◌≤◌};

use crate::calls::Call;
use board::ChosenRow;
use rule::Rule;

// None, apart from the library's.
const NONE: u16 = 65535;

// What is searched by: a rule, a call, and the givens or the target that it is lent.
#[derive(Clone, Copy)]
pub struct Search<'a> {
    pub rule: Rule,
    pub call: Call,
    pub lent: &'a [u8],
}

// A row, and what it earns with the number read for it.
#[derive(Clone, Copy)]
pub struct Found {
    pub row: ChosenRow,
    sum: usize,
}

// The binary digits of a row's number, apart from the library.
fn digits(halves: bool, w: usize) -> usize {
    if halves { w / 2 } else { w }
}

// Of two rows the second of which comes later, the better.
fn better(least: bool, greater_first: bool, held: Found, new: Found) -> Found {
    let replaced = if new.sum == held.sum {
        greater_first
    } else {
        least == (new.sum < held.sum)
    };
    if replaced { new } else { held }
}

impl Search<'_> {
    // Fills the entries of the call.
    pub fn fill(self, table: &mut [u16]) {
        let entries = self.call.entries;
        for k in 0..entries.count {
            let j = entries.from.wrapping_add(k);
            let entry = self.entry(j, table);
            if let Some(place) = table.get_mut(entries.target.wrapping_add(j)) {
                *place = entry;
            }
        }
    }

    fn entry(self, j: usize, table: &[u16]) -> u16 {
        let n = self.codes();
        let a = j / n;
        let b = j % n;
        let h = self.call.height;
        let after = self.call.entries.after;
        if after == 0 {
            let ends = self.steps(h, a, b, 0) && self.steps(h.wrapping_add(1), b, 0, 0);
            return if ends { 0 } else { NONE };
        }
        match self.best(h.wrapping_sub(after), a, b, table) {
            Some(found) => (found.sum % 65536) as u16,
            None => NONE,
        }
    }

    // The numbers of rows of up to five binary digits.
    pub fn codes(self) -> usize
        ensures { 1 ≤ result }
    {
        match digits(self.call.want.halves, self.call.width) {
            1 => 2,
            2 => 4,
            3 => 8,
            4 => 16,
            5 => 32,
            _ => 1,
        }
    }

    // The best row with r rows above it, below a over b.
    pub fn best(self, r: usize, a: usize, b: usize, table: &[u16]) -> Option<Found> {
        let want = self.call.want;
        (0..self.codes())
            .filter_map(|c| self.offer(r, a, b, c, table))
            .reduce(|held, new| better(want.least, want.greater_first, held, new))
    }

    // Row c there, if it may stand there and the number read for it counts.
    fn offer(self, r: usize, a: usize, b: usize, c: usize, table: &[u16]) -> Option<Found> {
        if !self.steps(r, a, b, c) {
            return None;
        }
        let first = self
            .call
            .entries
            .source
            .wrapping_add(b.wrapping_mul(self.codes()));
        let read = *table.get(first.wrapping_add(c))? as usize;
        if self.call.want.limit < read {
            return None;
        }
        let worth = self.worth(r, c)?;
        Some(Found {
            row: ChosenRow { row: c, worth },
            sum: worth.wrapping_add(read),
        })
    }

    // The live cells of the row with r rows above it that count: the free ones, and all where a target is lent; none where a given isn't kept.
    fn worth(self, r: usize, c: usize) -> Option<usize> {
        let w = self.call.width;
        let first = r.wrapping_mul(w);
        let mut worth = 0usize;
        for k in 0..w {
            let mark = self.given(first.wrapping_add(k));
            let state = self.cell(c, k.wrapping_add(1));
            if mark == 2 - state {
                return None;
            }
            if mark != 2 {
                worth = worth.wrapping_add(state);
            }
        }
        Some(worth)
    }

    // The given at a place; a target has none.
    fn given(self, k: usize) -> usize {
        if self.call.want.predecessor {
            0
        } else {
            self.byte(k)
        }
    }

    // A byte that is lent; past the end one that is no mark.
    fn byte(self, k: usize) -> usize {
        self.lent.get(k).map_or(255, |byte| *byte as usize)
    }

    // Every cell of row i, which is b, becomes what it has to below a and above c, in columns 0 to w + 1.
    fn steps(self, i: usize, a: usize, b: usize, c: usize) -> bool {
        (0..self.call.width.wrapping_add(2)).all(|j| self.becomes(a, b, c, j) == self.due(i, b, j))
    }

    fn becomes(self, a: usize, b: usize, c: usize, j: usize) -> usize {
        let state = self.cell(b, j);
        let live = self.three(a, j) + self.three(b, j) + self.three(c, j);
        let counts = if state == 0 {
            self.rule.births
        } else {
            self.rule.survivals
        };
        (counts >> (live.wrapping_sub(state) % 64)) % 2
    }

    // What the cell of row i, which is b, has to become in column j: the target's cell, the last digit of a byte, and dead outside the grid; without a target
    // what it is.
    fn due(self, i: usize, b: usize, j: usize) -> usize {
        if !self.call.want.predecessor {
            return self.cell(b, j);
        }
        let (w, h) = (self.call.width, self.call.height);
        if i == 0 || h < i || j == 0 || w < j {
            return 0;
        }
        self.byte((i - 1).wrapping_mul(w).wrapping_add(j - 1)) % 2
    }

    // The live cells in columns j - 1, j and j + 1 of a row.
    fn three(self, c: usize, j: usize) -> usize
        ensures { result ≤ 3 }
    {
        self.cell(c, j.wrapping_sub(1)) + self.cell(c, j) + self.cell(c, j.wrapping_add(1))
    }

    // The cell in column j of the row whose number is c, and of one whose left half is c: columns 1 to w / 2 from the left, then the same from the right.
    fn cell(self, c: usize, j: usize) -> usize
        ensures { result ≤ 1 }
    {
        let w = self.call.width;
        if j == 0 || w < j {
            return 0;
        }
        let n = digits(self.call.want.halves, w);
        let i = if j <= n { n - j } else { j - (n + 1) };
        (c >> (i % 64)) % 2
    }
}
