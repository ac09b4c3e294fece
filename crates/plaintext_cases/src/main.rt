// Tries text boards and prints what was tried: short texts against a second reader, boards of every size written and read back, the order
// of the refusals, and a long text. What comes out otherwise than it should is counted as wrong.
#![tactic(auto)]

mod common;
mod long;
mod made;
mod orders;
mod second;
mod sizes;
mod texts;

fn main() {
    texts::run();
    sizes::run();
    orders::run();
    long::run();
}
