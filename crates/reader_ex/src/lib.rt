// The form EX of a received reply, read.
#![tactic(auto)]

pub mod ex;
