// UTF-16LE texts as UTF-8.
#![tactic(auto)]

pub mod octet;
pub mod point16;
pub mod to8;
