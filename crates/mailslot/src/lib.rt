// A mailslot message, the request of old logger machines: document 02, #105, and source page 001.
#![tactic(auto)]

pub mod judge;
pub mod message;
pub mod padding;
pub mod text;
