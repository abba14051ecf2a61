// Fields of a block, a body or a record. An octet that is not there counts as 0, as in the definitions.
ghost use Rattle.std.specs.Prelude.{◌≡◌, ◌≤◌, get_or};
ghost use Rattle.octets.specs.Number.{u16_at, u32_at};
ghost use Rattle.table.specs.Block.{block_size};
ghost use Rattle.table.specs.Field.{text_at};

use octets::number::wide;
use octets::part::part;

// Where a text's length octet stands, and how many octets of room are after that.
#[derive(Clone, Copy)]
pub struct TextField {
    pub offset: usize,
    pub room: usize,
}

pub fn octet_in(s: &[u8], offset: usize) -> u8
    ensures { result ≡ get_or s.now offset 0 }
{
    if s.len() <= offset {
        return 0;
    }
    s[offset]
}

pub fn u16_in(s: &[u8], offset: usize) -> u16
    requires { offset ≤ block_size }
    ensures { result ≡ u16_at s.now offset }
{
    (wide(octet_in(s, offset)) + 256 * wide(octet_in(s, offset + 1))) as u16
}

pub fn u32_in(s: &[u8], offset: usize) -> u32
    requires { offset ≤ 510 }
    ensures { result ≡ u32_at s.now offset }
{
    (u16_in(s, offset) as u32) + 65536 * (u16_in(s, offset + 2) as u32)
}

pub fn text_in(s: &[u8], field: TextField) -> &[u8]
    requires { field.offset ≤ block_size }
    ensures { result.now ≡ text_at s.now field }
{
    let offset = field.offset;
    part(s, offset + 1, wide(octet_in(s, offset)) as usize)
}
