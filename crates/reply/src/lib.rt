// What a reply says, and the fields that its three forms share: document 01, "Reply octets".
#![tactic(auto)]

pub mod fields;
pub mod plan;
pub mod raw;
pub mod text;
