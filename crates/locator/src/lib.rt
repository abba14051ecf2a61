// The locator: document 01, "Answer numbers" and "Choosing the answer".
#![tactic(auto)]

use answers::Form;
use table::ContextNumber;

pub mod accepted;
pub mod over;
pub mod ping;
pub mod user;

// What is told of a reply that was written: its length, the context used and the form.
#[derive(Clone, Copy)]
pub struct Answered {
    pub length: usize,
    pub context: ContextNumber,
    pub form: Form,
}
