// P1 to P12: document 01, "Sample answers", as definitions and one statement about them.
#![tactic(auto)]
