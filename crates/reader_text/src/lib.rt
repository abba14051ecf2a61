// The texts of names of a received reply: document 01, "Reading a reply".
#![tactic(auto)]

use answers::Refusal;
use reader_names::step::WRITTEN_MOST;

pub mod label;
pub mod text;

// How many octets a name's text can have: it lacks the first length octet and the final zero of the name written out.
pub const TEXT_MOST: usize = WRITTEN_MOST - 2;

// A name's labels joined by dots, at the front of room for the longest; zeros after them. An empty name has length 0, a refused one none.
// The length stands beside its room: C is given all of the room, and the locator has no heap.
#[derive(Clone, Copy)]
pub struct NameText {
    pub len: Result<usize, Refusal>,
    pub octets: [u8; TEXT_MOST],
}
