// A mailslot message, read.
#![tactic(auto)]

pub mod part;
pub mod read;
