// What a person is shown of an answer: its meaning, the fields of a reply, and its octets.
#![tactic(auto)]

pub mod answer;
pub mod bits;
pub mod dump;
pub mod fields;
pub mod reading;
pub mod text;
