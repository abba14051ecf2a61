// Writes a reply where there is room for it: document 01, answer number 19.
#![tactic(auto)]

pub mod fit;
pub mod put;
