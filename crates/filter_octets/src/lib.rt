// The octets of a written filter, and how many they are: document 01, "The filter".
#![tactic(auto)]

pub mod size;
