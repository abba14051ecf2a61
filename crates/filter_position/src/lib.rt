// The elements of a filter: document 01, "The filter".
#![tactic(auto)]

pub mod position;
