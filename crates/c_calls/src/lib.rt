// What the exported calls leave in the structs that are lent to them, but for those that answer a ping.
#![tactic(auto)]

pub mod calls;
