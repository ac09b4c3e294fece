// A rule by counting neighbours, written apart from the library, and rules and boards to try.
ghost use Rattle.std.specs.Prelude.{◌≤◌};

use life::Change;
use rule::Rule;

// A rule: of each count of live neighbours, 0 to 9, whether it is a birth count and whether it is a survival count. Two lists, as the library's rule
// has two numbers.
#[derive(Clone, Copy)]
pub struct Counts {
    births: [bool; 10],
    survivals: [bool; 10],
}

impl Counts {
    // The rule with the counts that are listed.
    pub fn of(births: &[usize], survivals: &[usize]) -> Counts {
        Counts {
            births: marked(births),
            survivals: marked(survivals),
        }
    }

    // Whether the rule is not barred.
    pub fn is_allowed(&self) -> bool {
        !self.births[0] && !self.births[9] && !self.survivals[9]
    }

    // The rule without what would bar it.
    pub fn allowed(mut self) -> Counts {
        self.births[0] = false;
        self.births[9] = false;
        self.survivals[9] = false;
        self
    }

    // How many entries of a table are not the next state of their pattern's centre.
    pub fn wrong_entries(&self, table: &[u8; 512]) -> usize {
        table
            .iter()
            .enumerate()
            .filter(|(p, state)| **state != u8::from(self.next_of(*p)))
            .count()
    }

    // The next state of a pattern's centre.
    fn next_of(&self, p: usize) -> bool {
        let grid = Grid {
            counts: self,
            width: 3,
            height: 3,
            cells: &digits::<9>(p),
        };
        grid.next(2, 2)
    }
}

// The library's two numbers of a rule.
impl From<Counts> for Rule {
    fn from(counts: Counts) -> Rule {
        Rule {
            births: number_of(&counts.births),
            survivals: number_of(&counts.survivals),
        }
    }
}

fn marked(counts: &[usize]) -> [bool; 10] {
    let mut marks = [false; 10];
    for n in counts {
        if let Some(mark) = marks.get_mut(*n) {
            *mark = true;
        }
    }
    marks
}

// Count n adds 2^n.
fn number_of(counts: &[bool; 10]) -> usize {
    let mut sum = 0usize;
    for count in counts.iter().rev() {
        sum = sum.wrapping_add(sum).wrapping_add(usize::from(*count));
    }
    sum
}

// Pseudo-random cells and rules, by a linear congruence modulo 2^31.
#[derive(Clone, Copy)]
pub struct Random {
    state: u64,
}

impl Random {
    pub fn new() -> Random {
        Random { state: 1 }
    }

    fn bit(&mut self) -> bool {
        let x = self.state % 2147483648 * 1103515245 % 2147483648 + 12345;
        self.state = x;
        x / 65536 % 2 == 1
    }

    pub fn fill(&mut self, cells: &mut [u8]) {
        for cell in cells.iter_mut() {
            *cell = u8::from(self.bit());
        }
    }

    // A rule, barred ones among them.
    pub fn counts(&mut self) -> Counts {
        let births = self.marks();
        let survivals = self.marks();
        Counts { births, survivals }
    }

    fn marks(&mut self) -> [bool; 10] {
        let mut marks = [false; 10];
        for mark in marks.iter_mut() {
            *mark = self.bit();
        }
        marks
    }
}

// A board under a rule.
#[derive(Clone, Copy)]
pub struct Grid<'a> {
    pub counts: &'a Counts,
    pub width: usize,
    pub height: usize,
    pub cells: &'a [u8],
    ghost sized: { (width ≤ 10) × (height ≤ 60) },
}

impl Grid<'_> {
    // Whether a cell is live; rows i and columns j are one more than the ring's, so that none before the ring is negative.
    fn is_live(&self, i: usize, j: usize) -> bool {
        if i < 2 || self.height + 1 < i || j < 2 || self.width + 1 < j {
            return false;
        }
        self.cells.get((i - 2) * self.width + (j - 2)).copied() == Some(1)
    }

    // The live cells among three neighbouring ones of a row.
    fn three(&self, i: usize, j: usize) -> usize
        requires { j ≤ 100 }
        ensures { result ≤ 3 }
    {
        usize::from(self.is_live(i, j))
            + usize::from(self.is_live(i, j + 1))
            + usize::from(self.is_live(i, j + 2))
    }

    // Whether the cell in row r and column c, ring counted, is live next.
    fn next(&self, r: usize, c: usize) -> bool
        requires { (r ≤ 100) × (c ≤ 100) }
    {
        let beside = usize::from(self.is_live(r + 1, c)) + usize::from(self.is_live(r + 1, c + 2));
        let live = self.three(r, c) + beside + self.three(r + 2, c);
        if self.is_live(r + 1, c + 1) {
            self.counts.survivals[live]
        } else {
            self.counts.births[live]
        }
    }

    // How many bytes of a stepped board are not the next state.
    pub fn wrong_bytes(&self, ring: &[u8]) -> usize {
        let mut wrong = 0usize;
        for r in 0..self.height + 2 {
            for c in 0..self.width + 2 {
                if ring.get(r * (self.width + 2) + c).copied() != Some(u8::from(self.next(r, c))) {
                    wrong = wrong.wrapping_add(1);
                }
            }
        }
        wrong
    }

    // The first cell that changes, ring counted.
    pub fn first_change(&self) -> Option<Change> {
        for row in 0..self.height + 2 {
            for column in 0..self.width + 2 {
                if self.next(row, column) != self.is_live(row + 1, column + 1) {
                    return Some(Change { row, column });
                }
            }
        }
        None
    }
}

// How many bytes are not a given one.
pub fn other_than(bytes: &[u8], b: u8) -> usize {
    bytes.iter().filter(|byte| **byte != b).count()
}

// The binary digits of a number, the most significant first.
pub fn digits<const N: usize>(number: usize) -> [u8; N] {
    let mut cells = [0; N];
    let mut rest = number;
    for cell in cells.iter_mut().rev() {
        *cell = (rest % 2) as u8;
        rest = rest / 2;
    }
    cells
}
