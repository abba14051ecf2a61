// Names of a received reply: document 01, "Reading a reply".
#![tactic(auto)]

pub mod list;
pub mod look;
pub mod read;
pub mod step;
pub mod walk;

// A name as it was read: its first offset in the reply, how many octets its labels have when joined by dots, and its pointers.
#[derive(Clone, Copy)]
pub struct NameAt {
    pub start: usize,
    pub len: usize,
    pub pointers: usize,
}
