// Pseudo-random numbers: one for each seed and place, so that no state is handed on.
ghost use Rattle.std.specs.Prelude.{◌≤◌};

// A number below n, or 0 where n is 0.
pub fn below(n: usize, seed: usize, place: usize) -> usize
    ensures { result ≤ n }
{
    if n == 0 {
        return 0;
    }
    mixed(low(seed), low(place)) as usize / 8 % n
}

fn mixed(seed: u32, place: u32) -> u32 {
    let x = stirred(seed).wrapping_add(place.wrapping_mul(22695477));
    stirred(stirred(x))
}

fn stirred(x: u32) -> u32 {
    let z = (x ^ (x >> 15)).wrapping_mul(2246822519);
    z ^ (z >> 13)
}

// The last 32 binary digits.
fn low(n: usize) -> u32 {
    (n % 4294967296) as u32
}
