// A request of a Netlogon ping: document 01, "The filter".
#![tactic(auto)]

pub mod request;
