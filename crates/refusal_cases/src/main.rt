// Tries the refusals of opening, working, pausing and resuming: each once, and their order, for a call that breaks several rules answers the first.
// Prints each answer, the job that a working call hands back, and how much it has written. Ordinary jobs come first, then those of two layers,
// then those of mirror boards, then predecessor jobs.
#![tactic(auto)]

mod jobs;
mod mirror_boards;
mod openings;
mod ordinary;
mod predecessors;
mod rounds;
mod spoiling;
mod two_layers;
mod workings;

fn main() {
    openings::sizes();
    openings::givens();
    openings::largest();
    openings::rules();
    openings::edge_threes();
    openings::edge_threes_ruled();
    workings::jobs();
    workings::givens();
    workings::edge_threes();
    workings::memory();
    workings::passes();
    ordinary::resumptions();
    ordinary::pauses();
    spoiling::calls();
    openings::two_layers();
    two_layers::order();
    two_layers::memory();
    two_layers::low();
    two_layers::square();
    two_layers::high();
    two_layers::highest();
    two_layers::passes();
    two_layers::ended();
    two_layers::stages();
    two_layers::rows();
    rounds::kinds();
    rounds::lengths();
    rounds::rows();
    rounds::rows_ended();
    rounds::fillings();
    rounds::choices();
    rounds::ends();
    rounds::ordinary();
    spoiling::two_layers();
    spoiling::halves();
    openings::mirror_boards();
    openings::mirror_order();
    openings::lopsided();
    mirror_boards::order();
    mirror_boards::memory();
    mirror_boards::passes();
    mirror_boards::spoiled();
    mirror_boards::kinds();
    mirror_boards::widths();
    mirror_boards::lengths();
    mirror_boards::rows();
    mirror_boards::limits();
    mirror_boards::pauses();
    openings::predecessor_order();
    openings::predecessors();
    predecessors::order();
    predecessors::memory();
    predecessors::passes();
    predecessors::spoiled();
    predecessors::choices();
    predecessors::kinds();
    predecessors::sizes();
    predecessors::lengths();
    predecessors::rows();
    predecessors::limits();
    predecessors::pauses();
}
