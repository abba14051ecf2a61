// The arguments of the programs, taken apart: every text of any octets is read, or told to be no such argument.
#![tactic(auto)]

pub mod clause;
pub mod escape;
pub mod fault;
pub mod file;
pub mod message_word;
pub mod number;
pub mod word;
