// A long text: 60 rows of 10 cells, each ended by CR and LF and preceded by a comment.
use crate::common::Counts;
use crate::{common, made};
use plaintext::Size;

fn right_cells(cells: &[u8]) -> bool {
    cells
        .iter()
        .enumerate()
        .all(|(k, cell)| *cell == made::cell(k))
}

pub fn run() {
    let mut counts = Counts::new();
    let mut text = [0; 4560];
    made::fill(&mut text, 76);
    let (answer, cells) = common::read::<640>(&text, 0, 640);
    let size = Size {
        width: 10,
        height: 60,
    };
    let held = right_cells(common::first(&cells, 600))
        && common::is_left(common::rest(&cells, 600));
    counts.judge(common::number(&answer), answer == Ok(size) && held);
    counts.print(b"a text of 4560 bytes:");
}
