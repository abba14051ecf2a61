// How a record of a table image is found: document 01, "Choosing the answer".
#![tactic(auto)]

pub mod account;
pub mod context;
pub mod site;
pub mod subnet;
