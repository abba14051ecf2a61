// What stands after the names of a received EX at places 0 to 7: the address, and name 8.
#![tactic(auto)]

pub mod address;
pub mod last;
