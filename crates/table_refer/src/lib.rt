// What records refer to: contexts are looked for, sites marked. Document 01, "every number referred to exists".
#![tactic(auto)]

pub mod mark;
pub mod refer;
