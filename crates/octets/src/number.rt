// Numbers in octets.
ghost use Rattle.std.specs.Prelude.{◌≡◌, ◌+◌, ◌≤◌, ◌<◌, length};
ghost use Rattle.octets.specs.Number.{u16_at, u32_at, big, has};
ghost use Rattle.octets.specs.Lists.{cut};

// An octet as a wider number; it stays below 256.
pub fn wide(x: u8) -> u32
    ensures { (result ≡ x) × (result < 256) }
{
    x as u32
}

// The little-endian number of two octets at an offset.
pub fn u16_at(s: &[u8], at: usize) -> u16
    requires { at + 2 ≤ length s.now }
    ensures { result ≡ u16_at s.now at }
{
    u16::from_le_bytes([s[at], s[at + 1]])
}

// The little-endian number of four octets at an offset.
pub fn u32_at(s: &[u8], at: usize) -> u32
    requires { at + 4 ≤ length s.now }
    ensures { result ≡ u32_at s.now at }
{
    u32::from_le_bytes([s[at], s[at + 1], s[at + 2], s[at + 3]])
}

// The big-endian number of two octets at an offset.
pub fn big_u16_at(s: &[u8], at: usize) -> u16
    requires { at + 2 ≤ length s.now }
    ensures { result ≡ big (cut s.now at 2) }
{
    u16::from_be_bytes([s[at], s[at + 1]])
}

// Whether some bit of a mask is set.
pub fn has_bits(bits: u32, mask: u32) -> bool
    ensures { result ≡ has bits mask }
{
    bits & mask != 0
}
