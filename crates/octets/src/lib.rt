// Octets and texts, which every other part of document 01 is written in.
#![tactic(auto)]

pub mod name_rule;
pub mod number;
pub mod part;
pub mod size;
pub mod text;
