// Whether no two records are alike, by their order: document 01, "As a whole".
#![tactic(auto)]

pub mod unique;
