// What reading a received reply gives, and how every reply ends: document 01, "Reading a reply".
#![tactic(auto)]

pub mod ending;
pub mod reading;
