// Account names compared by Unicode's case folding, and its table: document 02, #108.
#![tactic(auto)]

pub mod compare;
pub mod fold_table;
