// Writes a planned reply of the two older forms.
#![tactic(auto)]

pub mod older;
