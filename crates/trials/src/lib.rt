// What the programs share that try the solver: cases to try, what a plain second implementation finds of them, written apart from the solver, and
// runs of jobs that are held to it.
#![tactic(auto)]

mod allowances;
mod calls;
mod cases;
mod counts;
mod faults;
pub mod forged;
mod jobs;
mod lines;
mod marks;
mod memory;
mod pieces;
pub mod plain;
mod rules;
pub mod runs;
mod sizes;
mod unit;

pub use calls::After;
pub use cases::{CELLS, Case};
pub use counts::count;
pub use jobs::in_pieces;
pub use memory::Memory;
pub use rules::Rules;
pub use sizes::Size;
