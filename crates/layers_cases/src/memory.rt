// What a call is lent: leftovers in the table, givens, and the table of the 512 patterns.
use crate::random;
use rule::Rule;
use std::array;

// An entry before any call: a number that counts, the greatest such, one that counts as none, or none.
pub fn leftover(limit: usize, seed: usize, k: usize) -> u16 {
    let x = random::below(536870912, seed, k);
    let entry = match x % 16 {
        0..=1 => 65535,
        2 => 601 + x / 16 % 64934,
        3 => limit % 65536 + 1,
        4 => limit,
        5..=7 => x / 16 % 4,
        _ => x / 16 % 601,
    };
    (entry % 65536) as u16
}

// Fills a table with leftovers.
pub fn spoil(limit: usize, seed: usize, table: &mut [u16]) {
    for (k, entry) in table.iter_mut().enumerate() {
        *entry = leftover(limit, seed, k);
    }
}

// So many givens as any call is lent.
pub fn givens(seed: usize) -> [u8; 704] {
    array::from_fn(|k| mark(seed, k))
}

// A given: few or many of them by the seed, and of some bytes that are no mark.
fn mark(seed: usize, k: usize) -> u8 {
    let most = random::below(6, seed, 3000000);
    let x = random::below(1000000, seed, 3000001 + k % 1024);
    if most <= x % 8 {
        return 0;
    }
    match x / 8 % 8 {
        0..=1 => 2,
        2..=5 => 1, // many live ones leave no row
        _ => (3 + x / 64 % 253) as u8,
    }
}

// A table of the 512 patterns that is no rule's.
pub fn bytes_of(seed: usize) -> [u8; 512] {
    array::from_fn(|pattern| next_state(seed, pattern))
}

// What a pattern becomes by no rule: what its centre is, the more often by the seed, or any byte.
fn next_state(seed: usize, pattern: usize) -> u8 {
    let same = random::below(17, seed, 4000000);
    let x = random::below(1000000, seed, 4000001 + pattern % 512);
    if x % 16 < same {
        return (pattern / 16 % 2) as u8;
    }
    match x / 16 % 4 {
        0 => 0,
        1 => 1,
        _ => (2 + x / 64 % 254) as u8,
    }
}

// The table of a pseudo-random rule.
pub fn rules_of(seed: usize) -> [u8; 512] {
    rule::table::of(rule_of(seed))
}

// Most are without birth on 0 to 2, under which few rows stay as they are.
fn rule_of(seed: usize) -> Rule {
    let from = if random::below(4, seed, 5000000) == 0 {
        511
    } else {
        504
    };
    Rule {
        births: random::below(512, seed, 5000001) & from,
        survivals: random::below(512, seed, 5000002),
    }
}

// The rule of a call that is compared with the plain search: Conway's, or a pseudo-random one.
pub fn plain_rule(seed: usize) -> Rule {
    if seed / 4 % 2 == 0 {
        rule::conway()
    } else {
        rule_of(seed)
    }
}
