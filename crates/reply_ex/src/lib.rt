// Writes a planned reply of the form EX.
#![tactic(auto)]

pub mod ex;
