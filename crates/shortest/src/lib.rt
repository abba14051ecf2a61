// Document 02, #113: no reply that says the same, in the same order, is shorter than document 01's. It holds no code.
#![tactic(auto)]
