// The table as a whole, and an image judged: document 01, "As a whole" and answer numbers 1 to 4.
#![tactic(auto)]

pub mod image;
pub mod judge;
pub mod whole;
