// An answer as the members of C's struct: the array of a struct has its members in their order, each of them a usize.
#![tactic(auto)]

pub mod answer;
