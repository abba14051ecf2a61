// A filter, written: document 01, "The filter".
#![tactic(auto)]

pub mod write;
