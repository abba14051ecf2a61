// The layouts of bodies and records: document 01, "The table image".
#![tactic(auto)]

pub mod field;
pub mod layout;
