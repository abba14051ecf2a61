// Addresses and prefixes: document 01, "The table image", kind 6.
#![tactic(auto)]

pub mod address;
