// Openings.
use crate::jobs;
use crate::jobs::Grid;
use job_kind::Kind;
use rule::Rule;

// An opening for a job of a kind on a grid, under a rule with Conway's survivals.
#[derive(Clone, Copy)]
struct Opening {
    grid: Grid,
    rule: Rule,
}

fn on(kind: Kind, births: usize, w: usize, h: usize) -> Opening {
    let survivals = 12;
    Opening {
        grid: Grid::new(kind, w, h),
        rule: Rule { births, survivals },
    }
}

impl Opening {
    fn open(self, name: &str, givens: &[u8]) {
        let grid = self.grid;
        report::text(name);
        jobs::print_result(job::open(grid.kind, self.rule, grid.w, grid.h, givens));
    }
}

pub fn sizes() {
    on(Kind::Ordinary, 8, 0, 61).open("open, width 0, height 61, 3 givens", &[0, 3, 0]);
    on(Kind::Ordinary, 8, 11, 0).open("open, width 11, height 0, 3 givens", &[0, 3, 0]);
    on(Kind::Ordinary, 8, 2, 0).open("open, height 0, 3 givens", &[0, 3, 0]);
    on(Kind::Ordinary, 8, 2, 61).open("open, height 61, 3 givens", &[0, 3, 0]);
    on(Kind::Ordinary, 9, 2, 0).open("open, height 0, births 9, 3 givens", &[0, 3, 0]);
    on(Kind::Ordinary, 9, 2, 2).open("open, births 9, givens 0, 3, 0 of 4", &[0, 3, 0]);
}

pub fn givens() {
    on(Kind::Ordinary, 8, 2, 2).open("open, givens 0, 3, 0 of 4", &[0, 3, 0]);
    on(Kind::Ordinary, 8, 2, 2).open("open, givens 0, 3, 0, 0, 0 of 4", &[0, 3, 0, 0, 0]);
    on(Kind::Ordinary, 8, 2, 2).open("open, givens 0, 1, 3, 4", &[0, 1, 3, 4]);
    on(Kind::Ordinary, 8, 2, 2).open("open, givens 0, 1, 2, 0", &[0, 1, 2, 0]);
}

// Openings of the largest grid, and of larger ones.
pub fn largest() {
    on(Kind::Ordinary, 8, 10, 60).open("open, 10 by 60", &[0; 600]);
    on(Kind::Ordinary, 8, 11, 60).open("open, 11 by 60", &[0; 660]);
    on(Kind::Ordinary, 8, 10, 61).open("open, 10 by 61", &[0; 610]);
}

// Openings under other rules.
pub fn rules() {
    let ruled = |name: &str, births, survivals| {
        let rule = Rule { births, survivals };
        let opening = Opening {
            rule,
            ..on(Kind::Ordinary, 8, 2, 2)
        };
        opening.open(name, &[0; 4]);
    };
    ruled("open, births 1", 1, 12);
    ruled("open, births 512", 512, 12);
    ruled("open, survivals 512", 8, 512);
    ruled("open, births 510, survivals 511", 510, 511);
}

// Openings with edge threes, and with lines that are none.
pub fn edge_threes() {
    on(Kind::Ordinary, 8, 3, 2).open("open, 3 by 2, row 1 given live", &[2, 2, 2, 0, 0, 0]);
    on(Kind::Ordinary, 8, 3, 2).open("open, 3 by 2, row 2 given live", &[0, 0, 0, 2, 2, 2]);
    on(Kind::Ordinary, 8, 2, 3).open("open, 2 by 3, column 1 given live", &[2, 0, 2, 0, 2, 0]);
    on(Kind::Ordinary, 8, 2, 3).open("open, 2 by 3, column 2 given live", &[0, 2, 0, 2, 0, 2]);
    on(Kind::Ordinary, 8, 5, 1).open("open, 5 by 1, all given live", &[2; 5]);
    on(Kind::Ordinary, 8, 1, 4).open("open, 1 by 4, the last three given live", &[0, 2, 2, 2]);
    on(Kind::Ordinary, 8, 3, 3).open(
        "open, 3 by 3, column 1 and row 3 given live",
        &[2, 0, 0, 2, 0, 0, 2, 2, 2],
    );
    on(Kind::Ordinary, 8, 5, 3).open(
        "open, 5 by 3, column 1 and the end of row 1 given live",
        &[2, 0, 2, 2, 2, 2, 0, 0, 0, 0, 2, 0, 0, 0, 0],
    );
    on(Kind::Ordinary, 8, 3, 3).open(
        "open, 3 by 3, row 2 given live",
        &[0, 0, 0, 2, 2, 2, 0, 0, 0],
    );
    on(Kind::Ordinary, 8, 2, 2).open(
        "open, 2 by 2, three given live round a corner",
        &[2, 2, 2, 0],
    );
    on(Kind::Ordinary, 8, 3, 1).open("open, 3 by 1, the first given live", &[2, 0, 0]);
    on(Kind::Ordinary, 8, 3, 1).open("open, 3 by 1, the second given dead", &[2, 1, 2]);
}

// Under other rules, and with other faults.
pub fn edge_threes_ruled() {
    on(Kind::Ordinary, 4, 3, 1).open("open, 3 by 1, all given live, births on 2", &[2; 3]);
    on(Kind::Ordinary, 28, 3, 1).open("open, 3 by 1, all given live, births on 2, 3, 4", &[2; 3]);
    on(Kind::Ordinary, 9, 3, 1).open("open, 3 by 1, all given live, births on 0 and 3", &[2; 3]);
    on(Kind::Ordinary, 8, 3, 1).open("open, 3 by 1, four given live", &[2; 4]);
    on(Kind::Ordinary, 8, 3, 2).open(
        "open, 3 by 2, row 1 given live, a mark 3",
        &[2, 2, 2, 0, 3, 0],
    );
}

// Openings of jobs of two layers, each of which breaks the rule that it names and those checked after it.
pub fn two_layers() {
    on(Kind::TwoLayers, 9, 11, 61).open("open, two layers, width 11, and all below", &[2, 2, 2, 3]);
    on(Kind::TwoLayers, 9, 3, 61).open("open, two layers, height 61, and all below", &[2, 2, 2, 3]);
    on(Kind::TwoLayers, 9, 3, 1).open("open, two layers, births 9, and all below", &[2, 2, 2, 3]);
    on(Kind::TwoLayers, 8, 3, 2).open(
        "open, two layers, 4 givens of 6, and all below",
        &[2, 2, 2, 3],
    );
    on(Kind::TwoLayers, 8, 3, 2).open(
        "open, two layers, row 1 of 3 by 2 given live, a mark 3",
        &[2, 2, 2, 0, 3, 0],
    );
    on(Kind::TwoLayers, 8, 3, 2).open(
        "open, two layers, row 1 of 3 by 2 given live",
        &[2, 2, 2, 0, 0, 0],
    );
    on(Kind::TwoLayers, 8, 3, 2).open("open, two layers, 3 by 2", &[0; 6]);
    on(Kind::TwoLayers, 8, 1, 1).open("open, two layers, 1 by 1", &[0]);
    on(Kind::TwoLayers, 8, 10, 60).open("open, two layers, 10 by 60", &[0; 600]);
}

// Openings of jobs of mirror boards with widths that they refuse, and each with all the other faults, and at the limits.
pub fn mirror_boards() {
    on(Kind::Mirror, 9, 0, 61).open("open, mirror boards, width 0, and all below", &[2, 2, 2, 3]);
    on(Kind::Mirror, 9, 1, 61).open("open, mirror boards, width 1, and all below", &[2, 2, 2, 3]);
    on(Kind::Mirror, 9, 3, 61).open("open, mirror boards, width 3, and all below", &[2, 2, 2, 3]);
    on(Kind::Mirror, 9, 19, 61).open(
        "open, mirror boards, width 19, and all below",
        &[2, 2, 2, 3],
    );
    on(Kind::Mirror, 9, 21, 61).open(
        "open, mirror boards, width 21, and all below",
        &[2, 2, 2, 3],
    );
    on(Kind::Mirror, 9, 22, 61).open(
        "open, mirror boards, width 22, and all below",
        &[2, 2, 2, 3],
    );
    on(Kind::Mirror, 8, 2, 1).open("open, mirror boards, 2 by 1", &[0; 2]);
    on(Kind::Mirror, 8, 2, 60).open("open, mirror boards, 2 by 60", &[0; 120]);
    on(Kind::Mirror, 8, 12, 1).open("open, mirror boards, 12 by 1", &[0; 12]);
    on(Kind::Mirror, 8, 20, 60).open("open, mirror boards, 20 by 60", &[0; 1200]);
    on(Kind::Mirror, 8, 20, 61).open("open, mirror boards, 20 by 61", &[0; 1220]);
    on(Kind::Mirror, 8, 22, 60).open("open, mirror boards, 22 by 60", &[0; 1320]);
}

// Openings of those of 4 by 2, each of which breaks the rule that it names and those checked after it.
pub fn mirror_order() {
    on(Kind::Mirror, 9, 4, 0).open(
        "open, mirror boards, height 0, and all below",
        &[2, 2, 2, 3],
    );
    on(Kind::Mirror, 9, 4, 61).open(
        "open, mirror boards, height 61, and all below",
        &[2, 2, 2, 3],
    );
    on(Kind::Mirror, 9, 4, 2).open(
        "open, mirror boards, births 9, and all below",
        &[2, 2, 2, 3],
    );
    on(Kind::Mirror, 8, 4, 2).open(
        "open, mirror boards, 7 givens of 8, and all below",
        &[2, 2, 2, 0, 3, 0, 0],
    );
    on(Kind::Mirror, 8, 4, 2).open(
        "open, mirror boards, 9 givens of 8, and all below",
        &[2, 2, 2, 0, 3, 0, 0, 0, 0],
    );
    on(Kind::Mirror, 8, 4, 2).open(
        "open, mirror boards, row 1 given live but its last, a mark 3",
        &[2, 2, 2, 0, 0, 3, 0, 0],
    );
    on(Kind::Mirror, 8, 4, 2).open(
        "open, mirror boards, row 1 given live but its last",
        &[2, 2, 2, 0, 0, 0, 0, 0],
    );
    on(Kind::Mirror, 4, 4, 2).open(
        "open, mirror boards, row 1 given live but its last, births on 2",
        &[2, 2, 2, 0, 0, 0, 0, 0],
    );
    on(Kind::Mirror, 8, 4, 2).open(
        "open, mirror boards, row 1 given live",
        &[2, 2, 2, 2, 0, 0, 0, 0],
    );
    on(Kind::Mirror, 8, 4, 2).open("open, mirror boards, 4 by 2", &[0, 1, 1, 0, 2, 0, 0, 2]);
}

// Lopsided grids of 4 by 2, and what other kinds of job make of the last.
pub fn lopsided() {
    on(Kind::Mirror, 8, 4, 2).open(
        "open, mirror boards, the first dead, its reflection free",
        &[1, 0, 0, 0, 0, 0, 0, 0],
    );
    on(Kind::Mirror, 8, 4, 2).open(
        "open, mirror boards, the first free, its reflection live",
        &[0, 0, 0, 2, 0, 0, 0, 0],
    );
    on(Kind::Mirror, 8, 4, 2).open(
        "open, mirror boards, the second live, its reflection dead",
        &[0, 2, 1, 0, 0, 0, 0, 0],
    );
    on(Kind::Mirror, 8, 4, 2).open(
        "open, mirror boards, the second of row 2 free, its reflection dead",
        &[2, 1, 1, 2, 0, 0, 1, 0],
    );
    on(Kind::Mirror, 8, 4, 2).open(
        "open, mirror boards, the first of row 2 dead, its reflection live",
        &[2, 1, 1, 2, 1, 0, 0, 2],
    );
    on(Kind::Mirror, 8, 4, 2).open(
        "open, mirror boards, the second of row 1 and the first of row 2",
        &[2, 1, 0, 2, 2, 0, 0, 0],
    );
    let alike = [1, 2, 0, 0, 1, 2, 0, 0];
    on(Kind::Mirror, 8, 4, 2).open("open, mirror boards, two rows alike", &alike);
    on(Kind::Ordinary, 8, 4, 2).open("open, two rows alike", &alike);
    on(Kind::TwoLayers, 8, 4, 2).open("open, two layers, two rows alike", &alike);
}

// Openings of predecessor jobs, each of which breaks the rule that it names and those checked after it.
pub fn predecessor_order() {
    on(Kind::Predecessor, 9, 0, 61).open(
        "open, predecessor, width 0, and all below",
        &[1, 1, 1, 2],
    );
    on(Kind::Predecessor, 9, 11, 61).open(
        "open, predecessor, width 11, and all below",
        &[1, 1, 1, 2],
    );
    on(Kind::Predecessor, 9, 12, 61).open(
        "open, predecessor, width 12, and all below",
        &[1, 1, 1, 2],
    );
    on(Kind::Predecessor, 9, 3, 0).open(
        "open, predecessor, height 0, and all below",
        &[1, 1, 1, 2],
    );
    on(Kind::Predecessor, 9, 3, 61).open(
        "open, predecessor, height 61, and all below",
        &[1, 1, 1, 2],
    );
    on(Kind::Predecessor, 9, 3, 2).open(
        "open, predecessor, births 9, and all below",
        &[1, 1, 1, 2],
    );
    on(Kind::Predecessor, 8, 3, 2).open(
        "open, predecessor, 4 cells of 6, and all below",
        &[1, 1, 1, 2],
    );
    on(Kind::Predecessor, 8, 3, 2).open(
        "open, predecessor, 7 cells of 6, and all below",
        &[1, 1, 1, 2, 0, 0, 0],
    );
    on(Kind::Predecessor, 8, 3, 2).open("open, predecessor, bytes 2 and 3", &[1, 1, 1, 0, 2, 3]);
    on(Kind::Predecessor, 8, 3, 2).open(
        "open, predecessor, bytes 255 and 2",
        &[0, 255, 1, 0, 2, 0],
    );
}

// Targets of 3 by 2 that would be edge threes or lopsided as givens, under Conway's rule, the last under another; and sizes at the limits.
pub fn predecessors() {
    on(Kind::Predecessor, 8, 3, 2).open("open, predecessor, row 1 of 2", &[2, 2, 2, 0, 0, 0]);
    on(Kind::Predecessor, 8, 3, 2).open("open, predecessor, row 1 live", &[1, 1, 1, 0, 0, 0]);
    on(Kind::Predecessor, 8, 3, 2).open("open, predecessor, all live", &[1; 6]);
    on(Kind::Predecessor, 8, 3, 2).open("open, predecessor, the first live", &[1, 0, 0, 0, 0, 0]);
    on(Kind::Predecessor, 8, 3, 2).open("open, predecessor, dead", &[0; 6]);
    on(Kind::Predecessor, 28, 3, 2).open("open, predecessor, births on 2, 3, 4, all live", &[1; 6]);
    on(Kind::Predecessor, 8, 4, 2).open(
        "open, predecessor, 4 by 2, two rows alike",
        &[1, 1, 0, 0, 1, 1, 0, 0],
    );
    on(Kind::Predecessor, 8, 1, 1).open("open, predecessor, 1 by 1, live", &[1]);
    on(Kind::Predecessor, 8, 10, 60).open("open, predecessor, 10 by 60, live", &[1; 600]);
    on(Kind::Predecessor, 8, 11, 60).open("open, predecessor, 11 by 60, live", &[1; 660]);
    on(Kind::Predecessor, 8, 12, 60).open("open, predecessor, 12 by 60, live", &[1; 720]);
    on(Kind::Predecessor, 8, 10, 61).open("open, predecessor, 10 by 61, live", &[1; 610]);
}
