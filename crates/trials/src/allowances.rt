// Pseudo-random allowances of working calls.

// None, one, a few, a part of the table's units, or more than any job has.
pub(crate) fn random(entries: usize, seed: usize, place: usize) -> u32 {
    let x = pseudo_random::below(1000000, seed, place);
    let units = match x % 16 {
        0..=1 => 0,
        2..=3 => 1,
        4..=7 => x / 16 % 8,
        8 => 4294967295,
        _ => pseudo_random::below(entries / 4 + 2, seed, x),
    };
    (units % 4294967296) as u32
}
