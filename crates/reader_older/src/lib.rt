// The two older forms of a received reply, NT40 and RESPONSE, read.
#![tactic(auto)]

pub mod opening;
pub mod response;
