// What a mailslot message says.
use octets::part::Stretch;

// By its limits no message has more octets.
pub const MESSAGE_MOST: usize = 316;

// The texts are stretches of the message, or of a source that one is written from: computer and user in UTF-16LE, without the zero unit
// that ends them, the mailslot's name without its zero octet, and the SID, of no octets where there is none.
#[derive(Clone, Copy)]
pub struct Message {
    pub repeat: u16,
    pub computer: Stretch,
    pub user: Stretch,
    pub mailslot: Stretch,
    pub bits: u32,
    pub sid: Stretch,
    pub version: u32,
}
