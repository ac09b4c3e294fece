// The plane around a board, every cell outside dead, and one step of it by a lent table.
// Rows r and columns c count the ring. An i or j is one more, so that the row before row 0 is 0.
ghost use Rattle.std.specs.Prelude.{◌≡◌, ◌+◌, ◌*◌, ◌<◌, ◌≤◌, pos, length};
ghost use Rattle.std.proofs.Math.IntN.{pred_ℤ};
ghost use Rattle.board.specs.Boards.{Board};
ghost use Rattle.board.specs.Search.{first_not};
ghost use Rattle.rule.specs.Rule.{entry_of};
ghost use Rattle.life.specs.Plane.{on_plane, three, around};
ghost use Rattle.life.specs.Calls.{change_says, judged, keeps_at, stepped, ring_size};

use crate::Change;

// A board on the plane.
#[derive(Clone, Copy)]
pub struct Plane<'a> {
    pub width: usize,
    pub height: usize,
    pub cells: &'a [u8],
    ghost board: { Board width height cells.now },
}

impl Plane<'_> {
    // The cell in row i - 1 and column j - 1.
    fn cell(&self, i: usize, j: usize) -> u8
        ensures { (result ≡ on_plane self.now.width self.now.height self.now.cells.now (pred_ℤ (pos i)) (pred_ℤ (pos j))) × (result ≤ 1) }
    {
        if i < 2 || self.height + 1 < i || j < 2 || self.width + 1 < j {
            return 0;
        }
        self.cells[(i - 2) * self.width + (j - 2)]
    }

    // The cells in columns c - 1, c and c + 1 of row i - 1, as three digits.
    fn three_at(&self, i: usize, c: usize) -> usize
        requires { c ≤ self.now.width + 1 }
        ensures { (result ≡ three (on_plane self.now.width self.now.height self.now.cells.now (pred_ℤ (pos i))) (pos c)) × (result < 8) }
    {
        4 * usize::from(self.cell(i, c))
            + 2 * usize::from(self.cell(i, c + 1))
            + usize::from(self.cell(i, c + 2))
    }

    // The 3 by 3 pattern around the cell in row r and column c.
    fn pattern(&self, r: usize, c: usize) -> usize
        requires row { r ≤ self.now.height + 1 }
        requires column { c ≤ self.now.width + 1 }
        ensures { (result ≡ around (on_plane self.now.width self.now.height self.now.cells.now) (pos r) (pos c)) × (result < 512) }
    {
        64 * self.three_at(r, c) + 8 * self.three_at(r + 1, c) + self.three_at(r + 2, c)
    }

    // The first cell that changes, over the ring and the inside.
    #[tactic(auto, unfolding(crate::specs::Calls::judged))]
    pub fn first_change(&self, next: &[u8; 512]) -> Option<Change>
        ensures { change_says result ≡ judged (entry_of next.now) self.now.width self.now.height self.now.cells.now }
    {
        let place = self.first_place(next)?;
        Some(Change {
            row: place / (self.width + 2),
            column: place % (self.width + 2),
        })
    }

    // Its place among those cells in reading order.
    fn first_place(&self, next: &[u8; 512]) -> Option<usize>
        ensures { result ≡ first_not (keeps_at (entry_of next.now) self.now.width self.now.height self.now.cells.now)
            (ring_size self.now.width self.now.height) }
    {
        (0..(self.width + 2) * (self.height + 2)).find(|place| !self.keeps(next, *place))
    }

    // Whether the cell at a place keeps its state.
    fn keeps(&self, next: &[u8; 512], place: usize) -> bool
        requires { place < ring_size self.now.width self.now.height }
        ensures { result ≡ keeps_at (entry_of next.now) self.now.width self.now.height self.now.cells.now place }
    {
        let row = place / (self.width + 2);
        let column = place % (self.width + 2);
        next[self.pattern(row, column)] == self.cell(row + 1, column + 1)
    }

    // The next pattern, ring included, into a buffer of its length.
    pub fn write_step(&self, next: &[u8; 512], ring: &mut [u8])
        requires { length ring.old ≡ ring_size self.now.width self.now.height }
        ensures { ring.new ≡ stepped (entry_of next.now) self.now.width self.now.height self.now.cells.now }
    {
        let columns = self.width + 2;
        for (k, state) in ring.iter_mut().enumerate() {
            *state = next[self.pattern(k / columns, k % columns)];
        }
    }
}
