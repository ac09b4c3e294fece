// Numbers around the edges of the rules of ordinary jobs, those of two layers and predecessor jobs: which of them resuming and pausing take.
use board::Refusal;
use job::{Checkpoint, Job, Stage};
use job_kind::Kind;
use rule::Rule;
use trials::{Rules, Size};

// What was tried.
#[derive(Clone, Copy, Default)]
pub struct Tally {
    pub taken: usize,
    pub wrong: usize,
}

pub fn try_all() {
    try_kind(
        Kind::Ordinary,
        "numbers around the rules that resuming takes: ",
        "jobs around the rules that pausing takes: ",
    );
    try_kind(
        Kind::TwoLayers,
        "numbers around the rules of two layers that resuming takes: ",
        "jobs of two layers around the rules that pausing takes: ",
    );
    try_kind(
        Kind::Predecessor,
        "numbers around the rules of predecessor jobs that resuming takes: ",
        "predecessor jobs around the rules that pausing takes: ",
    );
    try_kinds();
}

fn try_kind(kind: Kind, resuming: &str, pausing: &str) {
    let mut resumed = Tally::default();
    let mut paused = Tally::default();
    for k in 0..50000usize {
        let numbers = random_numbers(kind, k + 4000000);
        try_numbers(kind, numbers, &mut resumed);
        try_job(random_job(kind, numbers, k), &mut paused);
    }
    print(resuming, resumed);
    print(pausing, paused);
}

// Numbers of ordinary jobs and of those of two layers, with a kind's number of 0 to 4 or far above, resumed as either, and jobs with them.
fn try_kinds() {
    let mut ordinary = Tally::default();
    let mut two = Tally::default();
    let mut paused = Tally::default();
    for k in 0..50000usize {
        let numbers = with_any_kind(random_numbers(random_kind(k, 700001), k + 4100000), k);
        try_numbers(Kind::Ordinary, numbers, &mut ordinary);
        try_numbers(Kind::TwoLayers, numbers, &mut two);
        let kind = random_kind(k, 700002);
        try_job(
            job_in(kind, numbers, pseudo_random::below(4, k, 700003)),
            &mut paused,
        );
    }
    print(
        "numbers of either kind or none that resuming as an ordinary job takes: ",
        ordinary,
    );
    print("the same that resuming as a job of two layers takes: ", two);
    print("jobs of either kind with them that pausing takes: ", paused);
}

fn random_kind(seed: usize, place: usize) -> Kind {
    match pseudo_random::below(2, seed, place) {
        0 => Kind::Ordinary,
        _ => Kind::TwoLayers,
    }
}

// The numbers of a job with the number of either kind, of another, the first number of none, or one far above.
fn with_any_kind(c: Checkpoint, seed: usize) -> Checkpoint {
    let kind = match pseudo_random::below(8, seed, 700004) {
        0..=2 => 0,
        3..=5 => 1,
        6 => 2 + seed % 3,
        _ => usize::MAX - seed % 3,
    };
    Checkpoint { kind, ..c }
}

fn print(name: &str, t: Tally) {
    report::line(name, t.taken);
    report::line("  refused: ", 50000usize.wrapping_sub(t.taken));
    report::line("  differences from the rules: ", t.wrong);
}

// Resumes numbers as a kind.
fn try_numbers(kind: Kind, numbers: Checkpoint, t: &mut Tally) {
    count(
        takes(kind, numbers),
        is_resumed_as(kind, numbers),
        numbers,
        t,
    );
}

// Pauses a job.
fn try_job(job: Job, t: &mut Tally) {
    let numbers = numbers_of(job);
    let answer = match job.pause() {
        Ok(back) => (back == numbers).then_some(true),
        Err(r) => (r == Refusal::Checkpoint).then_some(false),
    };
    count(is_job(job), answer, numbers, t);
}

// Counts an answer, which has to be what the rules say.
pub fn count(taken: bool, answer: Option<bool>, numbers: Checkpoint, t: &mut Tally) {
    if taken {
        trials::count(&mut t.taken);
    }
    if answer != Some(taken) {
        print_difference(numbers);
        trials::count(&mut t.wrong);
    }
}

// Prints a difference with its numbers.
fn print_difference(c: Checkpoint) {
    report::line("difference: width ", c.width);
    report::line("  height ", c.height);
    report::line("  units ", c.units);
    report::line("  row above ", c.above);
    report::line("  last row ", c.last);
    report::line("  live ", c.live);
    report::line("  mark ", c.mark);
    report::line("  births ", c.births);
    report::line("  survivals ", c.survivals);
    report::line("  kind ", c.kind);
}

// Whether resuming as a kind takes numbers: none where it refuses them by another number than 7, or something is lost of them.
pub fn is_resumed_as(kind: Kind, numbers: Checkpoint) -> Option<bool> {
    match numbers.resume(kind) {
        Ok(job) => {
            let is_kept = job.pause() == Ok(numbers) && numbers_of(job) == numbers;
            (is_kept && job.kind == kind && is_job(job)).then_some(true)
        }
        Err(r) => (r == Refusal::Checkpoint).then_some(false),
    }
}

// The number of a kind, by the documents and apart from the library.
pub fn number_of(kind: Kind) -> usize {
    match kind {
        Kind::Ordinary => 0,
        Kind::TwoLayers => 1,
        Kind::Mirror => 2,
        Kind::Predecessor => 3,
    }
}

// The ten numbers of a job, by the documents.
fn numbers_of(job: Job) -> Checkpoint {
    let (above, last, live, mark) = match job.stage {
        Stage::Filling { above, last, live } => (above, last, live, 0),
        Stage::Choosing { above, last, live } => (above, last, live, 0),
        Stage::Finished { above, last, score } => (above, last, score, 1),
        Stage::Infeasible => (0, 0, 0, 2),
    };
    Checkpoint {
        width: job.width,
        height: job.height,
        units: job.units,
        above,
        last,
        live,
        mark,
        births: job.rule.births,
        survivals: job.rule.survivals,
        kind: number_of(job.kind),
    }
}

// Whether the rules let resuming as a kind take the numbers.
fn takes(kind: Kind, c: Checkpoint) -> bool {
    let is_size = 1 <= c.width && c.width <= 10 && 1 <= c.height && c.height <= 60;
    // no birth on 0, and no count above 8
    let is_rule = c.births % 2 == 0 && c.births < 512 && c.survivals < 512;
    let s = Size::new(kind, c.width, c.height);
    let are_rows = c.above < s.rows && c.last < s.rows;
    c.kind == number_of(kind) && is_size && is_rule && are_rows && is_stage(s, c)
}

// Whether the units, the rows and the live cells fit the mark.
fn is_stage(s: Size, c: Checkpoint) -> bool {
    match c.mark {
        0 => c.units < s.length && rows_fit(c, s.chosen(c.units)),
        1 => c.units == s.length && rows_fit(c, s.h),
        2 => c.units == s.none_length && rows_fit(c, 0),
        _ => false,
    }
}

// Whether the rows and the live cells fit so many rows chosen.
fn rows_fit(c: Checkpoint, chosen: usize) -> bool {
    match chosen {
        0 => c.above == 0 && c.last == 0 && c.live == 0,
        1 => c.above == 0 && c.live <= c.width,
        _ => c.live <= c.width.wrapping_mul(chosen),
    }
}

// Whether a job's stage fits its units, and its numbers the rules.
fn is_job(job: Job) -> bool {
    let left = Size::new(job.kind, job.width, job.height).left(job.units);
    let fits = match job.stage {
        Stage::Filling { .. } => left != 0,
        Stage::Choosing { .. } => left == 0,
        Stage::Finished { .. } => true,
        Stage::Infeasible => true,
    };
    fits && takes(job.kind, numbers_of(job))
}

// A job of some numbers in any stage. One that fills has no rows, unless it is one of two layers.
fn random_job(kind: Kind, c: Checkpoint, seed: usize) -> Job {
    let stage = pseudo_random::below(4, seed, 700000);
    if stage != 0 || kind == Kind::TwoLayers {
        return job_in(kind, c, stage);
    }
    let (above, last, live) = (0, 0, 0);
    job_in(
        kind,
        Checkpoint {
            above,
            last,
            live,
            ..c
        },
        stage,
    )
}

// A job of a kind with the other numbers of a job, in one of the four stages.
fn job_in(kind: Kind, c: Checkpoint, stage: usize) -> Job {
    let above = c.above;
    let last = c.last;
    let live = c.live;
    Job {
        kind,
        rule: Rule {
            births: c.births,
            survivals: c.survivals,
        },
        width: c.width,
        height: c.height,
        units: c.units,
        stage: match stage {
            0 => Stage::Filling { above, last, live },
            1 => Stage::Choosing { above, last, live },
            2 => Stage::Finished {
                above,
                last,
                score: live,
            },
            _ => Stage::Infeasible,
        },
    }
}

// Numbers that mostly keep the rules, so that those that do not mostly break one.
fn random_numbers(kind: Kind, seed: usize) -> Checkpoint {
    let tall = pseudo_random::below(3, seed, 800000) == 0;
    let low = if tall { 58 } else { 0 };
    let w = pseudo_random::below(12, seed, 800001);
    let s = Size::new(
        kind,
        w,
        pseudo_random::below(4, seed, 800002).wrapping_add(low),
    );
    let mark = match pseudo_random::below(16, seed, 800003) {
        0..=8 => 0,
        9..=12 => 1,
        13..=14 => 2,
        _ => 3,
    };
    let units = match kind {
        Kind::TwoLayers => two_layer_units(s, mark, seed),
        _ => random_units(s, mark, seed),
    };
    let rule = random_rule(seed);
    Checkpoint {
        width: s.w,
        height: s.h,
        units,
        above: random_row(s.rows, seed, 800006),
        last: random_row(s.rows, seed, 800008),
        live: random_live(s, units, seed),
        mark,
        births: rule.births,
        survivals: rule.survivals,
        kind: number_of(kind),
    }
}

fn random_rules(seed: usize) -> Rules {
    match pseudo_random::below(6, seed, 800012) {
        0 => Rules::Conway,
        1 => Rules::HighLife,
        2 => Rules::DayAndNight,
        3 => Rules::Seeds,
        4 => Rules::LifeWithoutDeath,
        _ => Rules::Random,
    }
}

// Mostly a rule that is not barred; else one with birth on 0, or with a number around 512 or far above.
fn random_rule(seed: usize) -> Rule {
    let rule = random_rules(seed).rule(seed);
    let large = 508usize.wrapping_add(pseudo_random::below(8, seed, 800013));
    let (births, survivals) = match pseudo_random::below(16, seed, 800014) {
        0 => (rule.births.wrapping_add(1), rule.survivals),
        1 => (large, rule.survivals),
        2 => (rule.births, large),
        3 => (510, 511),
        4 => (0usize.wrapping_sub(large), rule.survivals),
        5 => (rule.births, 0usize.wrapping_sub(large)),
        _ => (rule.births, rule.survivals),
    };
    Rule { births, survivals }
}

// Where an ordinary or a predecessor job of a mark stands, at the ends of filling and choosing, beside them, or anywhere.
fn random_units(s: Size, mark: usize, seed: usize) -> usize {
    let end = s.entries.wrapping_add(s.h);
    match pseudo_random::below(16, seed, 800004) {
        0..=4 => match mark {
            0 => s
                .entries
                .wrapping_add(pseudo_random::below(s.h, seed, 800005)),
            1 => end,
            _ => s.entries.wrapping_add(1),
        },
        5 => pseudo_random::below(end, seed, 800005),
        6..=7 => s.entries.wrapping_sub(1),
        8 => s.entries,
        9..=10 => s.entries.wrapping_add(1),
        11 => end.wrapping_sub(1),
        12..=13 => end,
        14 => end.wrapping_add(1),
        _ => 0usize.wrapping_sub(pseudo_random::below(70, seed, 800005)),
    }
}

// Where a job of two layers of a mark stands, where a row has just been chosen, at the ends, beside them, or anywhere.
fn two_layer_units(s: Size, mark: usize, seed: usize) -> usize {
    let end = s.length;
    let k = pseudo_random::below(s.h.wrapping_add(1), seed, 800015);
    let row = s.until_row(k);
    match pseudo_random::below(16, seed, 800004) {
        0..=4 => match mark {
            0 => row,
            1 => end,
            _ => s.none_length,
        },
        5 => pseudo_random::below(end, seed, 800005),
        6 => row.wrapping_sub(2),
        7 => row.wrapping_sub(1),
        8 => row.wrapping_add(1),
        9 => s.entries,
        10 => s.none_length,
        11 => end.wrapping_sub(1),
        12..=13 => end,
        14 => end.wrapping_add(1),
        _ => 0usize.wrapping_sub(pseudo_random::below(70, seed, 800005)),
    }
}

// The dead row, any, the last, or one past it.
fn random_row(n: usize, seed: usize, place: usize) -> usize {
    match pseudo_random::below(16, seed, place) {
        0..=8 => 0,
        9..=11 => n.wrapping_sub(1),
        12..=13 => pseudo_random::below(n, seed, place.wrapping_add(1)),
        14 => n,
        _ => usize::MAX,
    }
}

// None, the most that the rows chosen can have, one more, or anything.
fn random_live(s: Size, units: usize, seed: usize) -> usize {
    let kind = s.kind;
    let chosen = match kind {
        Kind::TwoLayers => s.chosen(units),
        _ => units.wrapping_sub(s.entries),
    };
    let most = s.w.wrapping_mul(chosen.min(61));
    match pseudo_random::below(16, seed, 800010) {
        0..=7 => 0,
        8..=11 => most,
        12..=13 => most.wrapping_add(1),
        14 => pseudo_random::below(600, seed, 800011),
        _ => usize::MAX,
    }
}
