// Counts, which stop at the greatest number.
ghost use Rattle.std.specs.Prelude.{◌≡◌, ◌+◌, ◌-◌, ◌^◌, ◌≤◌, min};

// One more.
pub fn count(n: &mut usize)
    ensures counted { n.new ≡ min (n.old + 1) (2 ^ 64 - 1) }
    ensures grows { n.old ≤ n.new }
{
    add(n, 1);
}

pub(crate) fn add(n: &mut usize, more: usize)
    ensures added { n.new ≡ min (n.old + more) (2 ^ 64 - 1) }
    ensures grows { n.old ≤ n.new }
{
    *n = n.saturating_add(more);
}
