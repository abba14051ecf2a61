// Plans a reply before an octet of it is written: its names, and its length.
#![tactic(auto)]

pub mod plan;
pub mod size;
