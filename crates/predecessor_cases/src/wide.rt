// Targets of more than four columns against plain enumeration of boards.
use crate::two_pieces::Ended;
use crate::{plain, two_pieces};
use job::Stage;
use job_kind::Kind;
use trials::plain::Best;
use trials::{Case, Size};

// The entries of 8 by 2.
const ENTRIES: usize = 131072;

// What was tried.
#[derive(Clone, Copy, Default)]
struct Tally {
    targets: usize,
    boards: usize,
    wrong: usize,
}

pub fn try_all() {
    let mut firsts = [None; plain::BOARDS];
    let mut table = [7u16; ENTRIES];
    let mut t = Tally::default();
    for (w, h) in [(5, 3), (6, 2), (7, 2), (8, 2)] {
        try_size(w, h, &mut firsts, &mut table, &mut t);
    }
    report::line(
        "pseudo-random targets of 5 by 3, 6 by 2, 7 by 2 and 8 by 2: ",
        t.targets,
    );
    report::line("  with a board: ", t.boards);
    report::line("  with none: ", t.targets.wrapping_sub(t.boards));
    report::line("  differences from enumeration: ", t.wrong);
}

fn try_size(w: usize, h: usize, firsts: &mut [Option<usize>], table: &mut [u16], t: &mut Tally) {
    let size = Size::new(Kind::Predecessor, w, h);
    plain::enumerate(rule::conway(), size, firsts);
    for k in 0..16usize {
        try_target(
            &Case::random(rule::conway(), size, k + 4000000),
            firsts,
            table,
            t,
        );
    }
}

fn try_target(case: &Case, firsts: &[Option<usize>], table: &mut [u16], t: &mut Tally) {
    let best = plain::best_board(firsts, case);
    trials::count(&mut t.targets);
    if best.is_some() {
        trials::count(&mut t.boards);
    }
    let right = match two_pieces::run(case, table) {
        Ok(ended) => is_right(case, best, &ended),
        Err(_) => false,
    };
    if !right {
        case.differs("a wide target", &mut t.wrong);
    }
}

// Whether a job ended with the board of enumeration, and wrote nothing but it.
fn is_right(case: &Case, best: Option<Best>, x: &Ended) -> bool {
    let s = case.size;
    let (written, right) = match (best, x.job.stage) {
        (Some(b), Stage::Finished { score, .. }) => {
            let wanted = Case::of_number(case.rule, s, case.seed, b.board);
            let is_board = x
                .board
                .iter()
                .zip(wanted.givens.iter())
                .take(s.cells)
                .all(|(a, b)| a == b);
            (
                s.cells,
                score == b.score && x.job.units == s.length && is_board,
            )
        }
        (None, Stage::Infeasible) => (0, x.job.units == s.none_length),
        _ => (0, false),
    };
    right && x.board.iter().skip(written).all(|cell| *cell == 9)
}
