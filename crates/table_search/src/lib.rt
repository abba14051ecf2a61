// The search for a record in an accepted image: document 01, "Choosing the answer".
#![tactic(auto)]

pub mod nearest;
pub mod search;
