// One column of column elimination, for eight rows b at once and all rows a together: its masks, and the step from one vector of numbers to the
// next. 0 stands for no number, and the greater wins.
#![tactic(auto)]

ghost use Rattle.std.specs.Prelude.{◌≡◌, false, ℕ, MatchOption, ◌+◌, ◌*◌, ◌-◌, ◌<◌, ◌≤◌, ◌^◌, ◌/◌, ◌%◌, get_or};
ghost use Rattle.std.specs.Int.Bits.{bit_and};
ghost use Rattle.board.specs.Boards.{max_width};
ghost use Rattle.rule.specs.Rule.{entry_of};
ghost use Rattle.life.specs.Rows.{window};
ghost use Rattle.column_elimination.specs.Columns.{larger, mask_of, pattern_kept, mix, crossed, column_mask, last_mask};
ghost use Rattle.column_elimination.specs.Written.{Wrote};
ghost use Rattle.columns.specs.Calls.{eight_from, column_masks_fit, column_fits, WindowPlaces, Leaves};

use board::MAX_WIDTH;
use std::array;

// A vector has eight numbers, one a lane, for each of the 2^(w+2) ways to read w + 2 cells: the first ones of row a, the others of row c.
pub const VECTOR: usize = 32768;

// The masks of a column in eight lanes, by three cells of row a and three of row c; and those of the last two columns, by two cells each.
pub const MASKS: usize = 512;

pub const LAST_MASKS: usize = 128;

// The greater of two numbers.
pub fn top(u: u16, v: u16) -> u16
    ensures { result ≡ larger u v }
{
    u.max(v)
}

// Writes eight lanes from a place on.
fn eight<const N: usize, F: Fn(usize) -> u16>(dst: &mut [u16; N], o: usize, lane: F)
    requires room { o + 8 ≤ N }
    requires can { (l : ℕ) → l < 8 → F.pre lane l }
    ensures { (f : ℕ → ℕ) → ((l v : ℕ) → l < 8 → F.post lane l v → v ≡ f l) → Wrote o 8 f dst.old dst.new }
{
    for l in 0..8 {
        dst[o + l] = lane(l);
    }
}

// ---- one column
// Source, masks and destination go on as parameters: only src and masks could be one value, as dst is written, and each call would still give its
// places.

// Column j, from one vector to the other. Where there is no such column nothing is written.
#[tactic(auto, unfolding(crate::specs::Calls::column_fits))]
pub fn column(
    src: &[u16; VECTOR],
    masks: &[u16; MASKS],
    w: usize,
    j: usize,
    dst: &mut [u16; VECTOR],
)
    ensures { Leaves (column_fits w j) (32 * 2 ^ w) (crossed src.now masks.now (2 ^ (w + 2 - j))) dst.old dst.new }
{
    if column_fits(w, j) {
        halves(src, masks, w, j, dst);
    }
}

// Whether j is one of the columns 0 to w - 1.
#[tactic(auto, unfolding(crate::specs::Calls::column_fits))]
fn column_fits(w: usize, j: usize) -> bool
    ensures { result ≡ column_fits w j }
{
    w <= MAX_WIDTH && j < w
}

// A half for each number that the cells of row a so far can have.
fn halves(src: &[u16; VECTOR], masks: &[u16; MASKS], w: usize, j: usize, dst: &mut [u16; VECTOR])
    requires { (w ≤ max_width) × (j < w) }
    ensures { Wrote 0 (32 * 2 ^ w) (crossed src.now masks.now (2 ^ (w + 2 - j))) dst.old dst.new }
{
    let n = two_to(w - 1 - j);
    let to = two_to(j + 1);
    for p in 0..to {
        half(
            src,
            (p - p % 2) * (32 * n),
            masks,
            64 * (p % 8),
            dst,
            p * (32 * n),
            n,
        );
    }
}

// A power of two.
fn two_to(k: usize) -> usize
    requires { k < 64 }
    ensures { result ≡ 2 ^ k }
{
    1 << k
}

// Four runs of n times eight lanes: the next cell of row a is one, and the first two cells of row c are each in turn.
fn half(
    src: &[u16; VECTOR],
    i: usize,
    masks: &[u16; MASKS],
    m: usize,
    dst: &mut [u16; VECTOR],
    o: usize,
    n: usize,
)
    requires { (0 < n) × (i + 64 * n ≤ 32768) × (m + 64 ≤ 512) × (o + 32 * n ≤ 32768) }
    ensures { Wrote o (32 * n) (λ y. mix src.now masks.now (i + y) (i + 32 * n + y) (m + 8 * (y / (8 * n))) (y % 8)) dst.old dst.new }
{
    let k = i + 32 * n;
    for r in 0..4 {
        part(
            src,
            i + r * (8 * n),
            k + r * (8 * n),
            masks,
            m + 8 * r,
            dst,
            o + r * (8 * n),
            n,
        );
    }
}

// A run of n times eight lanes with the same masks.
fn part(
    src: &[u16; VECTOR],
    i: usize,
    k: usize,
    masks: &[u16; MASKS],
    m: usize,
    dst: &mut [u16; VECTOR],
    o: usize,
    n: usize,
)
    requires { (i + 8 * n ≤ 32768) × (k + 8 * n ≤ 32768) × (m + 40 ≤ 512) × (o + 8 * n ≤ 32768) }
    ensures { Wrote o (8 * n) (λ y. mix src.now masks.now (i + y) (k + y) m (y % 8)) dst.old dst.new }
{
    for x in 0..n {
        let i = i + 8 * x;
        let k = k + 8 * x;
        eight(dst, o + 8 * x, |l| {
            top(src[i + l] & masks[m + l], src[k + l] & masks[m + 32 + l])
        });
    }
}

// ---- masks
// Of each pattern, as a mask, whether its middle cell keeps its state.
pub fn keeps(next: &[u8; 512], keep: &mut [u16; 512])
    ensures { Wrote 0 512 (λ p. mask_of (pattern_kept (entry_of next.now) p)) keep.old keep.new }
{
    for (p, kept) in keep.iter_mut().enumerate() {
        *kept = mask(next[p] == (p / 16 % 2) as u8);
    }
}

// A test as a mask.
fn mask(t: bool) -> u16
    ensures { result ≡ mask_of t }
{
    if t { 65535 } else { 0 }
}

// The masks of column j, of eight rows from b on. Where there are no such rows or no such column nothing is written.
#[tactic(auto, unfolding(crate::specs::Calls::eight_from, crate::specs::Calls::column_masks_fit))]
pub fn column_masks(keep: &[u16; 512], w: usize, b: usize, j: usize, masks: &mut [u16; MASKS])
    ensures { Leaves (column_masks_fit w b j) 512 (column_mask keep.now w b j) masks.old masks.new }
{
    match EightRows::new(w, b) {
        Some(rows) if j <= w + 1 => rows.masks(keep, j, masks),
        _ => {}
    }
}

// The masks of the last two columns, of eight rows from b on: by the last two cells of row a and of row c. Where there are no such rows nothing is
// written.
#[tactic(auto, unfolding(crate::specs::Calls::eight_from))]
pub fn last_masks(keep: &[u16; 512], w: usize, b: usize, masks: &mut [u16; LAST_MASKS])
    ensures { Leaves (eight_from w b) 128 (last_mask keep.now w b) masks.old masks.new }
{
    if let Some(rows) = EightRows::new(w, b) {
        rows.last_masks(keep, masks);
    }
}

// Eight rows of a width, from one on.
#[derive(Clone, Copy)]
struct EightRows {
    width: usize,
    first: usize,
    ghost are_rows: { (width ≤ max_width) × (first + 8 ≤ 2 ^ width) },
}

impl EightRows {
    // Where there are such rows; by a difference, since the sum can wrap.
    #[tactic(auto, unfolding(crate::specs::Calls::eight_from))]
    fn new(width: usize, first: usize) -> Option<EightRows>
        ensures { MatchOption result (eight_from width first ≡ false) (λ rows. (rows.width ≡ width) × (rows.first ≡ first)) }
    {
        if width <= MAX_WIDTH && 8 <= two_to(width) && first <= two_to(width) - 8 {
            Some(EightRows { width, first })
        } else {
            None
        }
    }

    // Of column j, by three cells of row a and three of row c, in eight lanes.
    fn masks(self, keep: &[u16; 512], j: usize, masks: &mut [u16; MASKS])
        requires { j ≤ self.width + 1 }
        ensures { Wrote 0 512 (column_mask keep.now self.width self.first j) masks.old masks.new }
    {
        let at = self.windows(j);
        for t in 0..64 {
            let p = 64 * (t / 8) + t % 8;
            eight(masks, 8 * t, |l| keep[p + at[l]]);
        }
    }

    // Of the last two columns, by two cells each, in eight lanes.
    fn last_masks(self, keep: &[u16; 512], masks: &mut [u16; LAST_MASKS])
        ensures { Wrote 0 128 (last_mask keep.now self.width self.first) masks.old masks.new }
    {
        let at = self.windows(self.width);
        let past = self.windows(self.width + 1);
        for t in 0..16 {
            let p = 128 * (t / 4) + 2 * (t % 4);
            let q = 256 * (t / 4 % 2) + 4 * (t % 2);
            eight(masks, 8 * t, |l| keep[p + at[l]] & keep[q + past[l]]);
        }
    }

    // The places of the rows' patterns among those with the same cells above and below.
    fn windows(self, j: usize) -> [usize; 8]
        requires { j ≤ self.width + 1 }
        ensures places { (l : ℕ) → l < 8 → get_or result l 0 ≡ 8 * window self.width (self.first + l) j }
        ensures small { WindowPlaces result }
    {
        array::from_fn(|l| 8 * ((4 * (self.first + l) >> (self.width + 1 - j)) % 8))
    }
}
