// Puts texts through what the program prints, and prints each answer with what was written: every refusal that the program can print, none,
// scores of one to three digits, grids as wide as its table has room for and wider, the longest text and one byte more, and
// memory of other sizes. The boards of large grids are judged apart.
//
// It can't print 3 or 5, since givens and board are lent as w × h cells; 4, since a cell that was read is given as 0 or 2; 7 or 9, since the job
// is opened and worked to its end in one call; 10 or 11, since the output has room for every board, and the board is the solver's; 13, since the
// rule is Conway's.
#![tactic(auto)]

mod answers;
mod judge;
mod texts;

fn main() {
    texts::refused();
    texts::infeasible();
    texts::scored();
    texts::longest();
    texts::large();
    texts::too_large();
    texts::short_table();
    texts::long_output();
}
