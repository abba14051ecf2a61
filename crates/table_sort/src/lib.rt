// Records sorted, so that those that are alike stand next to each other: document 01, "As a whole".
#![tactic(auto)]

pub mod sort;
