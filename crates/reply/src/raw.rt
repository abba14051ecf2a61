// What a reply says, its texts as stretches of the table image or of the ping's source.
ghost use Rattle.std.specs.Prelude.{◌≡◌, ◌<◌, ◌≤◌, length, get_or, take};
ghost use Rattle.lent.specs.Internal.Stretch.{empty_stretch};

use lent::stretch::Stretch;

// The slots of a reply's texts, the names of the EX form at their places: forest, context and host; the next three; own site and client site; and the next closest site.
pub const CONTEXT_NETBIOS: usize = 3;

pub const SERVER_NETBIOS: usize = 4;

pub const USER: usize = 5;

pub const NEXT_SITE: usize = 8;

pub const SLOTS: usize = 9;

// A text that is absent is a stretch of no octets.
#[derive(Clone, Copy)]
pub struct RawReply {
    pub opcode: u16,
    pub flags: u32,
    pub guid: Stretch,
    pub ipv4: Stretch,
    pub slots: [Stretch; SLOTS],
    pub with_address: bool,
    pub with_next_site: bool,
}

impl RawReply {
    // Where the text of a slot lies.
    pub fn text(&self, slot: usize) -> Stretch
        requires { slot < 9 }
        ensures { result ≡ get_or self.now.slots slot empty_stretch }
    {
        self.slots[slot]
    }

    // The same of the first `count` slots.
    pub fn first(&self, count: usize) -> &[Stretch]
        requires { count ≤ 9 }
        ensures { (result.now ≡ take count self.now.slots) × (length result.now ≡ count) }
    {
        &self.slots[..count]
    }
}
