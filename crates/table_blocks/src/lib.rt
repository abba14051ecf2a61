// The blocks of an image by their layouts: document 01, "The table image" and answer number 3.
#![tactic(auto)]

pub mod layout;
