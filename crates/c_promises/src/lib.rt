// What the exported calls promise, and demand 1 of them. It holds no code.
#![tactic(auto)]
