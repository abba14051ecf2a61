// What the reply to a ping says: document 01, "Choosing the answer", each text as a stretch of what was lent.
#![tactic(auto)]

pub mod chosen;
pub mod text;
