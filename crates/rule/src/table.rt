// The next state of the centre of each 3 by 3 pattern of cells, by Life's rule and by any other.
// A pattern is a number of nine binary digits: top left worth 256, centre 16, bottom right 1.
ghost use Rattle.std.specs.Prelude.{◌≡◌, ◌≤◌, length};
ghost use Rattle.board.specs.Answers.{check_says};
ghost use Rattle.rule.specs.Rule.{Holds, Conway, has_count, live_around, next_under, table_of, generate_rule, generate_writes};

use crate::Rule;
use board::Refusal;

const NEXT: [u8; 512] = [
    0, 0, 0, 0, 0, 0, 0, 1, // pattern 7
    0, 0, 0, 1, 0, 1, 1, 0, 0, // pattern 16
    0, 0, 1, 0, 1, 1, 1, 0, 1, 1, 1, 1, 1, 1, 0, 0, 0, 0, 1, 0, 1, 1, 0, 0, 1, 1, 0, 1, 0, 0, 0, 0,
    1, 1, 1, 1, 1, 1, 0, 1, 1, 1, 0, 1, 0, 0, 0, 0, 0, 0, 1, 0, 1, 1, 0, 0, 1, 1, 0, 1, 0, 0, 0, 0,
    1, 1, 1, 1, 1, 1, 0, 1, 1, 1, 0, 1, 0, 0, 0, 0, 1, 1, 0, 1, 0, 0, 0, 1, 0, 0, 0, 0, 0, 0, 0, 1,
    1, 1, 0, 1, 0, 0, 0, 1, 0, 0, 0, 0, 0, 0, 0, 0, 0, 0, 1, 0, 1, 1, 0, 0, 1, 1, 0, 1, 0, 0, 0, 0,
    1, 1, 1, 1, 1, 1, 0, 1, 1, 1, 0, 1, 0, 0, 0, 0, 1, 1, 0, 1, 0, 0, 0, 1, 0, 0, 0, 0, 0, 0, 0, 1,
    1, 1, 0, 1, 0, 0, 0, 1, 0, 0, 0, 0, 0, 0, 0, 0, 1, 1, 0, 1, 0, 0, 0, 1, 0, 0, 0, 0, 0, 0, 0, 1,
    1, 1, 0, 1, 0, 0, 0, 1, 0, 0, 0, 0, 0, 0, 0, 1, 0, 0, 0, 0, 0, 0, 0, 0, 0, 0, 0, 0, 0, 0, 0, 1,
    0, 0, 0, 0, 0, 0, 0, 0, 0, 0, 0, 0, 0, 0, 0, 0, 0, 0, 1, 0, 1, 1, 0, 0, 1, 1, 0, 1, 0, 0, 0, 0,
    1, 1, 1, 1, 1, 1, 0, 1, 1, 1, 0, 1, 0, 0, 0, 0, 1, 1, 0, 1, 0, 0, 0, 1, 0, 0, 0, 0, 0, 0, 0, 1,
    1, 1, 0, 1, 0, 0, 0, 1, 0, 0, 0, 0, 0, 0, 0, 0, 1, 1, 0, 1, 0, 0, 0, 1, 0, 0, 0, 0, 0, 0, 0, 1,
    1, 1, 0, 1, 0, 0, 0, 1, 0, 0, 0, 0, 0, 0, 0, 1, 0, 0, 0, 0, 0, 0, 0, 0, 0, 0, 0, 0, 0, 0, 0, 1,
    0, 0, 0, 0, 0, 0, 0, 0, 0, 0, 0, 0, 0, 0, 0, 0, 1, 1, 0, 1, 0, 0, 0, 1, 0, 0, 0, 0, 0, 0, 0, 1,
    1, 1, 0, 1, 0, 0, 0, 1, 0, 0, 0, 0, 0, 0, 0, 1, 0, 0, 0, 0, 0, 0, 0, 0, 0, 0, 0, 0, 0, 0, 0, 1,
    0, 0, 0, 0, 0, 0, 0, 0, 0, 0, 0, 0, 0, 0, 0, 1, 0, 0, 0, 0, 0, 0, 0, 0, 0, 0, 0, 0, 0, 0, 0, 1,
    0, 0, 0, 0, 0, 0, 0, 0, 0, 0, 0, 0, 0, 0, 0, 0, 0, 0, 0, 0, 0, 0, 0, 0, 0, 0, 0, 0, 0, 0, 0, 0,
    0, 0, 0, 0, 0, 0, 0, 0, 0, 0, 0, 0, 0, 0, 0, // pattern 511
];

// Life's table, to be kept and lent.
pub fn conway() -> [u8; 512]
    ensures { Conway result }
{
    NEXT
}

// A rule's table, to be kept and lent: the constants for Conway's. A barred rule has one too.
pub fn of(rule: Rule) -> [u8; 512]
    ensures { Holds (next_under rule) result }
{
    if rule.births == 8 && rule.survivals == 12 {
        return conway();
    }
    let mut table = [0; 512];
    fill(rule, &mut table);
    table
}

// The generator: fills a table of exactly 512 entries from a rule. Refusals 13, 6.
#[tactic(auto, unfolding(crate::specs::Rule::generate_rule, crate::specs::Rule::generate_writes))]
pub fn generate(rule: Rule, table: &mut [u8]) -> Result<(), Refusal>
    ensures { (check_says result ≡ generate_rule rule (length table.old)) ×
        (table.new ≡ generate_writes rule table.old) }
{
    crate::check_rule(rule)?;
    if table.len() != 512 {
        return Err(Refusal::ShortTable);
    }
    fill(rule, table);
    Ok(())
}

// Writes the 512 entries.
fn fill(rule: Rule, table: &mut [u8])
    requires { length table.old ≡ 512 }
    ensures { table.new ≡ table_of rule }
{
    for p in 0..table.len() {
        table[p] = next_of(rule, p);
    }
}

// The next state of a pattern's centre.
fn next_of(rule: Rule, p: usize) -> u8
    ensures { result ≡ next_under rule p }
{
    let live = live_around(p);
    if p / 16 % 2 == 0 {
        has_count(rule.births, live)
    } else {
        has_count(rule.survivals, live)
    }
}

// The live neighbours of a pattern's centre.
fn live_around(p: usize) -> usize
    ensures { (result ≡ live_around p) × (result ≤ 8) }
{
    p / 256 % 2 + p / 128 % 2 + p / 64 % 2 + p / 32 % 2 + p / 8 % 2 + p / 4 % 2 + p / 2 % 2 + p % 2
}

// 1 where n is one of the counts; a cell has eight neighbours.
fn has_count(counts: usize, n: usize) -> u8
    requires { n ≤ 8 }
    ensures { result ≡ has_count counts n }
{
    ((counts >> n) % 2) as u8
}
