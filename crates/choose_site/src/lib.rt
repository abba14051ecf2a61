// The sites of a reply: document 01, "Choosing the answer".
#![tactic(auto)]

pub mod site;
