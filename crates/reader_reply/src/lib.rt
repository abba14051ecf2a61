// A received reply, read in its form: document 01, "Reading a reply".
#![tactic(auto)]

pub mod read;
