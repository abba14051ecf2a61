// The records of a table image by their offsets: collected, and compared in pairs. Document 01, "As a whole".
#![tactic(auto)]

pub mod alike;
pub mod offset;
