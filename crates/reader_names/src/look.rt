// What stands at an offset of a name: the top two bits of its octet decide.
ghost use Rattle.std.specs.Prelude.{◌≡◌};
ghost use Rattle.names.specs.Walk.{look_at};
ghost use Rattle.reader_names.specs.Internal.Look.{look_in};

use octets::number::{big_u16_at, wide};

// The name's end, a label of so many octets, a pointer to an offset; an octet is missing, or the top bits are of no kind.
#[derive(Drop)]
pub enum Look {
    End,
    Label(usize),
    Pointer(usize),
    Missing,
    Reserved,
}

// Both are set for a pointer, neither for a label.
const TOP_BITS: u8 = 0xC0;

// A pointer's offset.
const OFFSET_BITS: u16 = 0x3FFF;

pub fn look_at(reply: &[u8], at: usize) -> Look
    ensures { look_in result ≡ look_at reply.now at }
{
    if reply.len() <= at {
        return Look::Missing;
    }
    let first = reply[at];
    if first == 0 {
        return Look::End;
    }
    let top = first & TOP_BITS;
    if top == 0 {
        return Look::Label(wide(first) as usize);
    }
    if top != TOP_BITS {
        return Look::Reserved;
    }
    if reply.len() - at < 2 {
        return Look::Missing;
    }
    Look::Pointer((big_u16_at(reply, at) & OFFSET_BITS) as usize)
}
