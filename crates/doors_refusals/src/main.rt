// Number 1 by each length rule, and an arena for each number from 2 to 24 and each detail of 34: answers and rows.
// `stdout` is written by hand from the sentences of 01 and 02 that stand beside the tables.
#![tactic(auto)]

mod lengths;
mod refusals;

fn main() {
    lengths::run();
    refusals::run();
}
