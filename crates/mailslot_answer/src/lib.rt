// The answer to a mailslot message: document 02, #105.
#![tactic(auto)]

pub mod accepted;
pub mod answer;
pub mod ping;
