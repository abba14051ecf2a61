// Words of vector lines: what they stand for, the buffers that they lend, and the words of an answer.
#![tactic(auto)]

pub mod answer;
pub mod word;
