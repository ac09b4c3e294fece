// Pseudo-random numbers, for the programs that try others: one for each seed and place, so that no state is handed on.
#![tactic(auto)]

ghost use Rattle.std.specs.Prelude.{◌≡◌, ◌<◌};

// A number below n, or 0 where n is 0.
pub fn below(n: usize, seed: usize, place: usize) -> usize
    ensures { (n ≡ 0 → result ≡ 0) × (0 < n → result < n) }
{
    if n == 0 {
        return 0;
    }
    mixed(seed, place) / 8 % n
}

fn mixed(seed: usize, place: usize) -> usize {
    let x = stirred(seed) % 4294967296 + place % 4294967296 * 22695477 % 4294967296;
    stirred(stirred(x))
}

fn stirred(x: usize) -> usize {
    let y = x % 4294967296;
    let z = (y ^ (y >> 15)) % 4294967296 * 2246822519 % 4294967296;
    z ^ (z >> 13)
}
