// The fields and texts of a received reply: document 01, "Reading a reply".
#![tactic(auto)]

pub mod field;
pub mod text;
