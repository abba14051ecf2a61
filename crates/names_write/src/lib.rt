// Compressed names, written as they are planned: document 01, "Reply octets".
#![tactic(auto)]

pub mod put;
