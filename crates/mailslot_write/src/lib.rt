// A mailslot message, written: document 02, #105.
#![tactic(auto)]

mod put;
mod size;
pub mod write;
