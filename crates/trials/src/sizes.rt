// A kind of job over a size of board, with what follows from them by the documents.
ghost use Rattle.std.specs.Prelude.{◌≡◌, ◌+◌, ◌^◌, ◌<◌, ◌≤◌, IfSome};

use crate::plain;
use job_kind::Kind;

#[derive(Clone, Copy)]
pub struct Size {
    pub kind: Kind,
    pub w: usize,
    pub h: usize,
    // w × h
    pub cells: usize,
    // The binary digits that a row is held by: w, of mirror boards w ÷ 2. The rows that there are, 2 to that power.
    pub digits: usize,
    pub rows: usize,
    // The entries of a layer, and those filled before row 1 is chosen, h layers.
    pub layer: usize,
    pub entries: usize,
    // The entries filled by a job that finds a board.
    pub fills: usize,
    // The entries of the table that a job needs, and the first of them that it writes.
    pub room: usize,
    pub first: usize,
    // The units of a job that finds a board, and of one that finds none.
    pub length: usize,
    pub none_length: usize,
}

impl Size {
    pub fn new(kind: Kind, w: usize, h: usize) -> Size
        ensures { (result.kind ≡ kind) × (result.w ≡ w) × (result.h ≡ h) }
    {
        let digits = if kind == Kind::Mirror { w / 2 } else { w };
        let rows: usize = match digits {
            1..=10 => 1 << digits,
            _ => 1,
        };
        let layer = rows.wrapping_mul(rows);
        let entries = layer.wrapping_mul(h);
        let two = kind == Kind::TwoLayers;
        let fills = if two {
            filled_again(layer, h, h)
        } else {
            entries
        };
        Size {
            kind,
            w,
            h,
            cells: w.wrapping_mul(h),
            digits,
            rows,
            layer,
            entries,
            fills,
            room: if two { layer.wrapping_mul(2) } else { entries },
            first: if two && h == 1 { layer } else { 0 }, // layer 1 alone, which lies in half 1
            length: fills.wrapping_add(h),
            none_length: entries.wrapping_add(1),
        }
    }

    // The units done when row k has just been chosen; none for k = 0.
    pub fn until_row(&self, k: usize) -> usize
        ensures { k ≡ 0 → result ≡ 0 }
    {
        if k == 0 {
            return 0;
        }
        let filled = match self.kind {
            Kind::TwoLayers => filled_again(self.layer, self.h, k),
            _ => self.entries,
        };
        filled.wrapping_add(k)
    }

    // The rows chosen by so many units.
    pub fn chosen(&self, units: usize) -> usize
        ensures { result ≤ self.now.h }
    {
        for k in 0..self.h {
            if units < self.until_row(k.wrapping_add(1)) {
                return k;
            }
        }
        self.h
    }

    // The entries still to be filled after so many units, before the next row is chosen.
    pub fn left(&self, units: usize) -> usize
        ensures { units + result < 2 ^ 64 }
    {
        let next = self.until_row(self.chosen(units).wrapping_add(1));
        next.wrapping_sub(1).saturating_sub(units)
    }

    // The whole row that is held by a number: of mirror boards its left half, and then the same digits from the last to the first.
    pub(crate) fn whole(&self, row: usize) -> usize {
        if self.kind != Kind::Mirror {
            return row;
        }
        let mut whole = row;
        let mut rest = row;
        for _ in 0..self.digits {
            whole = (whole << 1).wrapping_add(rest % 2);
            rest = rest / 2;
        }
        whole
    }

    // The place of the first cell of a board that differs from its reflection.
    pub fn first_lopsided(&self, board: &[u8]) -> Option<usize>
        ensures { IfSome result (λ p. p < self.now.cells) }
    {
        (0..self.cells).find(|p| plain::at(board, *p) != plain::at(board, self.reflection(*p)))
    }

    // The place of a cell's left-right reflection.
    pub(crate) fn reflection(&self, place: usize) -> usize {
        if self.w == 0 {
            return place;
        }
        let c = place % self.w;
        (place - c).wrapping_add(self.w - 1 - c)
    }
}

// The entries that two layers are filled with until k rows of h are chosen: those of h layers, of h - 1, and so on, k numbers.
fn filled_again(layer: usize, h: usize, k: usize) -> usize {
    let first_and_last = h.wrapping_mul(2).wrapping_sub(k).wrapping_add(1);
    layer.wrapping_mul(k.wrapping_mul(first_and_last) / 2)
}
