// Choosing: document 01, "Choosing the answer". The definitions, and what the server and the ping alone decide.
#![tactic(auto)]

pub mod answer;
pub mod flags;
