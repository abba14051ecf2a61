// Vector lines of received replies: one is read in a form, and a name of one is walked.
#![tactic(auto)]

pub mod read;
pub mod walk;
