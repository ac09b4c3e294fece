// The rules that cases are tried under.
ghost use Rattle.std.specs.Prelude.{◌≡◌, ◌%◌, ◌<◌, IsTrue};
ghost use Rattle.rule.specs.Rule.{rule_fits};

use rule::Rule;

// One rule for all seeds, or a pseudo-random one for each.
#[derive(Clone, Copy)]
pub enum Rules {
    Conway,
    // Births on 3, 6; survivals on 2, 3.
    HighLife,
    // Births on 3, 6, 7, 8; survivals on 3, 4, 6, 7, 8.
    DayAndNight,
    // Births on 2.
    Seeds,
    // Births on 3; survivals on 0 to 8.
    LifeWithoutDeath,
    // Births on 4 to 8; survivals on 2 to 5.
    WalledCities,
    Random,
}

impl Rules {
    // The rule for a seed; none is barred.
    pub fn rule(self, seed: usize) -> Rule
        ensures { IsTrue (rule_fits result) }
    {
        match self {
            Rules::Conway => rule::conway(),
            Rules::HighLife => numbered(72, 12),
            Rules::DayAndNight => numbered(456, 472),
            Rules::Seeds => numbered(4, 0),
            Rules::LifeWithoutDeath => numbered(8, 511),
            Rules::WalledCities => numbered(496, 60),
            Rules::Random => random_rule(seed),
        }
    }
}

fn numbered(births: usize, survivals: usize) -> Rule
    ensures { (result.births ≡ births) × (result.survivals ≡ survivals) }
{
    Rule { births, survivals }
}

// Most are without birth on 1, under which no live cell stays still, and on 2, under which few do.
fn random_rule(seed: usize) -> Rule
    ensures { (result.births % 2 ≡ 0) × (result.births < 512) × (result.survivals < 512) }
{
    let births = pseudo_random::below(512, seed, 900001);
    numbered(
        match pseudo_random::below(8, seed, 900000) {
            0 => births / 2 * 2,
            1..=2 => births / 4 * 4,
            _ => births / 8 * 8,
        },
        pseudo_random::below(512, seed, 900002),
    )
}
