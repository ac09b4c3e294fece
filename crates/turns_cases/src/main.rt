// Tries what turning a grid changes: all eight turns of grids with givens, each solved by either kind of job, whole or in pieces, against the grid
// as it was; and turning twice. Prints what was tried.
#![tactic(auto)]

mod answers;
mod cells;
mod eight_turns;
mod grids;
mod pairs;
mod tried;

use grids::Group;
use trials::Rules;

fn main() {
    pairs::print_turns(3, 2);
    pairs::try_list("pairs of turns of the list of 3 by 2: ", 3, 2);
    pairs::try_list("pairs of turns of the list of 2 by 3: ", 2, 3);
    pairs::try_list("pairs of turns of the list of 1 by 4: ", 1, 4);
    try_every();
    try_random();
    try_rules();
}

fn try_every() {
    let two = Group::Every { w: 2, h: 2 };
    let three = Group::Every { w: 3, h: 2 };
    try_group("every grid of 2 by 2: ", two, Rules::Conway, 81);
    try_group("every grid of 3 by 2: ", three, Rules::Conway, 729);
}

fn try_random() {
    try_group(
        "pseudo-random grids up to 5 by 5: ",
        Group::UpToFive,
        Rules::Conway,
        500,
    );
    try_group(
        "pseudo-random grids of 6 by 3, 3 by 6, 7 by 4 and 4 by 7: ",
        Group::Larger,
        Rules::Conway,
        16,
    );
    try_group(
        "pseudo-random grids of 1 by 10 and 10 by 1: ",
        Group::Lines,
        Rules::Conway,
        16,
    );
}

// Seeds and Walled Cities are without birth on 3.
fn try_rules() {
    let up_to_five = Group::UpToFive;
    try_group("HighLife, up to 5 by 5: ", up_to_five, Rules::HighLife, 100);
    try_group(
        "Life without death, up to 5 by 5: ",
        up_to_five,
        Rules::LifeWithoutDeath,
        100,
    );
    try_group("Seeds, up to 5 by 5: ", up_to_five, Rules::Seeds, 100);
    try_group(
        "Walled Cities, up to 5 by 5: ",
        up_to_five,
        Rules::WalledCities,
        100,
    );
    try_group(
        "Life without death, 1 by 10 and 10 by 1: ",
        Group::Lines,
        Rules::LifeWithoutDeath,
        16,
    );
}

// The first grids of a group, under a rule with a name.
fn try_group(name: &str, group: Group, rules: Rules, end: usize) {
    tried::try_group(name, group, rules.rule(0), end);
}
