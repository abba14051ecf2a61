// What names and SIDs must be: document 01, "The table image".
#![tactic(auto)]

pub mod name_rule;
