// The checks of an image's blocks: document 01, "The table image" and answer number 2.
#![tactic(auto)]

pub mod check;
