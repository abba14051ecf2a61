// The context used: document 01, "Answer numbers" 11 to 17 and "Choosing the answer".
#![tactic(auto)]

pub mod context;
