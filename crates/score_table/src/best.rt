// The best row below two rows.
ghost use Rattle.std.specs.Prelude.{◌≡◌, ◌+◌, ◌<◌, ◌≤◌, ◌^◌, length};
ghost use Rattle.board.specs.Boards.{max_width, max_mirror_width, Width};
ghost use Rattle.rule.specs.Rule.{entry_of};
ghost use Rattle.elimination.specs.Candidates as Candidates;
ghost use Rattle.elimination.specs.Kind.{choose};
ghost use Rattle.score_table.specs.ScoreTable.{reads_from};
ghost use Rattle.score_table.specs.Rows.{marks_of, digits_of};
ghost use Rattle.score_table.specs.Inner.{skip_to, offered, choice_of, compared, kind_by, Found};

use crate::rows::{Above, Marks};
use crate::{Grid, Want, rows};
use std::cmp::Ordering;

// A row, and its worth with the number read for it.
#[derive(Clone, Copy, Debug, PartialEq, Eq)]
pub struct Best {
    pub row: usize,
    pub sum: usize,
}

// The next number of so many binary digits that differs from x in columns 1 to j + 1: every row before it has the cells of x there.
fn next_row(bits: usize, x: usize, j: usize) -> usize
    requires { (bits ≤ max_width) × (x < 2 ^ bits) × (j ≤ max_mirror_width + 1) }
    ensures { (result ≡ skip_to bits x j) × (x < result) × (result ≤ 2 ^ bits) }
{
    let s = bits.saturating_sub(j + 1);
    ((x >> s) + 1) << s
}

// What a row offers that may stand somewhere by its columns, with the number read for it: the sum of its worth and that number, where it keeps its marks
// and the number counts.
fn offer(limit: usize, marks: Marks<'_>, row: usize, read: u16) -> Option<usize>
    ensures { result ≡ offered limit marks.entry.w (marks_of marks.entry.target marks.entry.lent.now) marks.entry.at row read }
{
    if !marks.kept(row) {
        return None;
    }
    let e = read as usize;
    if limit < e {
        return None;
    }
    Some(marks.worth(row) + e)
}

// What is held after a row that comes later, by what it offers.
fn consider(want: Want, held: Option<Best>, row: usize, offered: Option<usize>) -> Option<Best>
    ensures { choice_of result ≡ Candidates.consider (compared want) row offered (choice_of held) }
{
    let Some(sum) = offered else {
        return held;
    };
    let Some(best) = held else {
        return Some(Best { row, sum });
    };
    let order = if want.least {
        best.sum.cmp(&sum)
    } else {
        sum.cmp(&best.sum)
    };
    match order {
        Ordering::Greater => Some(Best { row, sum }),
        Ordering::Less => held,
        Ordering::Equal if want.greater_first => Some(Best { row, sum: best.sum }),
        Ordering::Equal => held,
    }
}

// The best row below a over b, which has to become t, a row of w cells: of the rows c below which it does and that keep the givens that start at a
// place, and for which the table has a number from `first` on that isn't none, the one with the wanted sum of its worth and the number.
pub fn best_row(
    grid: Grid<'_>,
    a: usize,
    b: usize,
    t: usize,
    at: usize,
    table: &[u16],
    first: usize,
) -> Option<Best>
    requires { Width grid.want.halves grid.width × (a < 2 ^ digits_of grid.want grid.width) × (b < 2 ^ digits_of grid.want grid.width) × (t < 2 ^ grid.width) × (at + grid.width ≤ length grid.givens.now) × (first + 2 ^ digits_of grid.want grid.width ≤ length table.now) }
    ensures { Found grid.entry.want grid.entry.width result (choose (kind_by grid.entry.want (entry_of grid.entry.next.now) grid.entry.width t grid.entry.givens.now at) 0 a b (reads_from table.now first)) }
{
    let w = grid.width;
    let want = grid.want;
    let bits = board::row_digits(want.halves, w);
    let n = rows::row_codes(bits);
    let above = Above {
        w,
        a: rows::row_for(want, w, a),
        b: rows::row_for(want, w, b),
        t,
    };
    let columns = above.columns();
    let marks = Marks {
        target: want.predecessor,
        w,
        lent: grid.givens,
        at,
    };
    let mut held = None;
    let mut c = 0;
    // Document 01, "Forms by place", names this form. A row that fails in a column is skipped with all that have the same cells up to there.
    'rows: loop {
        if n <= c {
            break held;
        }
        let row = rows::row_for(want, w, c);
        // By hand and with `!=`, for speed: an iterator over the columns takes a fifth more instructions a column, and a range more than this.
        let mut j = 0;
        while j != w + 2 {
            if !rows::passes(grid.next, w, columns[j], row, j) {
                c = next_row(bits, c, j);
                continue 'rows;
            }
            j += 1;
        }
        let offered = offer(want.limit, marks, row, table[first + c]);
        held = consider(want, held, c, offered);
        c += 1;
    }
}
