// Life-like rules: the counts of live neighbours that give birth and let survive, the check of a rule, and Conway's own by its cases.
// `table` has a rule's next states for the 512 patterns of 3 by 3 cells.
#![tactic(auto)]

use board::Refusal;

pub mod table;

ghost use Rattle.std.specs.Prelude.{◌≡◌};
ghost use Rattle.board.specs.Answers.{check_says};
ghost use Rattle.rule.specs.Rule.{conway_rule, next_state, rule_check, grid_check};

// A rule: the counts of live neighbours on which a dead cell is born and on which a live one survives, count n adding 2^n.
#[derive(Clone, Copy, Debug, PartialEq, Eq)]
pub struct Rule {
    pub births: usize,
    pub survivals: usize,
}

// Conway's rule: births on 3, survivals on 2 and 3.
pub fn conway() -> Rule
    ensures { result ≡ conway_rule }
{
    Rule {
        births: 8,
        survivals: 12,
    }
}

// 13: 0 is no birth count, and no count is above 8.
#[tactic(auto, unfolding(crate::specs::Rule::rule_check))]
pub fn check_rule(rule: Rule) -> Result<(), Refusal>
    ensures { check_says result ≡ rule_check rule }
{
    if rule.births % 2 != 0 {
        return Err(Refusal::Rule);
    }
    if 511 < rule.births {
        return Err(Refusal::Rule);
    }
    if 511 < rule.survivals {
        return Err(Refusal::Rule);
    }
    Ok(())
}

// 1, 2, 13: the size by how rows are held, then the rule.
#[tactic(auto, unfolding(crate::specs::Rule::grid_check))]
pub fn check(halves: bool, rule: Rule, w: usize, h: usize) -> Result<(), Refusal>
    ensures { check_says result ≡ grid_check halves rule w h }
{
    board::check_size(halves, w, h)?;
    check_rule(rule)
}

// Conway's rule by its cases: a cell's next state, by its state and its number of live neighbours.
pub fn next_state(centre: u8, live: u8) -> u8
    ensures { result ≡ next_state centre live }
{
    match live {
        0..=1 => 0, // isolation
        2 => centre,
        3 => 1,
        4..=8 => 0, // overcrowding
        _ => 0, // a cell has eight neighbours
    }
}
