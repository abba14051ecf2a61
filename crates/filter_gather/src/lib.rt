// The clauses of a filter, gathered: document 01, "The filter".
#![tactic(auto)]

pub mod gather;
pub mod letters;
pub mod seen;
