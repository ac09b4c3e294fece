// The step and the judge against the plain count: Conway's rule on boards of every size, and other rules.
ghost use Rattle.std.specs.Prelude.{◌≤◌};

use crate::plain;
use plain::{Counts, Grid, Random};
use rule::Rule;

pub fn conway() {
    let counts = Counts::of(&[3], &[2, 3]);
    every_3_by_3("boards of 3 by 3, still of 512: ", counts);
    every_size(counts);
}

// Rules with a name.
pub fn other_rules() {
    every_3_by_3(
        "HighLife, boards of 3 by 3, still of 512: ",
        Counts::of(&[3, 6], &[2, 3]),
    );
    every_3_by_3(
        "Day & Night, boards of 3 by 3, still of 512: ",
        Counts::of(&[3, 6, 7, 8], &[3, 4, 6, 7, 8]),
    );
    every_3_by_3(
        "Seeds, boards of 3 by 3, still of 512: ",
        Counts::of(&[2], &[]),
    );
    every_3_by_3(
        "Life without death, boards of 3 by 3, still of 512: ",
        Counts::of(&[3], &[0, 1, 2, 3, 4, 5, 6, 7, 8]),
    );
}

// All 512 boards of 3 by 3.
fn every_3_by_3(name: &str, counts: Counts) {
    let rule = Rule::from(counts);
    let mut still = 0usize;
    let mut wrong = 0usize;
    for number in 0..512 {
        let cells = plain::digits::<9>(number);
        if life::judge(rule, 3, 3, &cells) == Ok(None) {
            still = still.wrapping_add(1);
        }
        wrong = wrong.wrapping_add(differences(counts, 3, 3, &cells, &mut [9; 25]));
    }
    report::line(name, still);
    report::line("  differences from the plain count: ", wrong);
}

// Ten pseudo-random boards of every size.
fn every_size(counts: Counts) {
    let mut random = Random::new();
    let mut wrong = 0usize;
    for k in 0..6000 {
        let w = k % 10 + 1;
        let h = k / 10 % 60 + 1;
        let mut cells = [0; 600];
        random.fill(&mut cells);
        wrong = wrong.wrapping_add(differences(counts, w, h, &cells, &mut [9; 744]));
    }
    report::line(
        "boards of all 600 sizes, ten of each: differences from the plain count: ",
        wrong,
    );
}

// A pseudo-random board of each size up to 6 by 6 under 50 pseudo-random rules, 1,800 rules in all.
pub fn random_rules() {
    let mut random = Random::new();
    let mut wrong = 0usize;
    for k in 0..1800 {
        let w = k % 6 + 1;
        let h = k / 6 % 6 + 1;
        let mut cells = [0; 36];
        random.fill(&mut cells);
        let counts = random.counts().allowed();
        wrong = wrong.wrapping_add(differences(counts, w, h, &cells, &mut [9; 64]));
    }
    report::line(
        "1800 rules, boards of up to 6 by 6: differences from the plain count: ",
        wrong,
    );
}

// How the step and the judge differ from the plain count on a board of w × h of the cells, by as much of the ring as it has: wrong bytes, and one
// more for a wrong verdict.
fn differences(counts: Counts, w: usize, h: usize, cells: &[u8], ring: &mut [u8]) -> usize
    requires { (w ≤ 10) × (h ≤ 60) }
{
    let Some(cells) = cells.get(..w * h) else {
        return 1;
    };
    let Some(ring) = ring.get_mut(..(w + 2) * (h + 2)) else {
        return 1;
    };
    let rule = Rule::from(counts);
    let grid = Grid {
        counts: &counts,
        width: w,
        height: h,
        cells,
    };
    let stepped = life::step(rule, w, h, cells, ring);
    let judged = life::judge(rule, w, h, cells);
    grid.wrong_bytes(ring)
        .wrapping_add(usize::from(stepped != Ok(())))
        .wrapping_add(usize::from(judged != Ok(grid.first_change())))
}
