// Unicode's simple case folding: document 02, #108.
#![tactic(auto)]

pub mod fold;
