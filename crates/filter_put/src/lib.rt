// The octets of a filter, written into a buffer that has the room.
#![tactic(auto)]

pub mod put;
