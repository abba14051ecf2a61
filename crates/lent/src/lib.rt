// What is lent: stretches of two slices that are read, and the rest of a buffer that is written.
#![tactic(auto)]

pub mod put;
pub mod slices;
pub mod stretch;
