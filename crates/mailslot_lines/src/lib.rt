// Vector lines of mailslot messages: one is read, and one is written. `mailping` lines are answered where `ping` lines are.
#![tactic(auto)]

pub mod read;
pub mod write;
