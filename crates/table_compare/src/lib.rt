// The order of records: document 01, "As a whole".
#![tactic(auto)]

pub mod compare;
