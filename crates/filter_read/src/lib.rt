// A filter, read: document 01, "The filter" and "Answer numbers" 5 to 9.
#![tactic(auto)]

pub mod clauses;
pub mod ping;
pub mod read;
pub mod value;
pub mod wrong_value;
