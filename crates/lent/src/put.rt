// Octets and numbers written into a lent buffer that has the room: at its front, or at an offset.
ghost use Rattle.std.specs.Prelude.{◌≡◌, ◌+◌, ◌≤◌, length};
ghost use Rattle.octets.specs.Buffer.{over};
ghost use Rattle.octets.specs.Number.{little_octets};
ghost use Rattle.lent.specs.Internal.OverAt.{over_at};

// Octets at the front of a buffer. Octet by octet, which is compiled to a memcpy: a copy of parts asks C for memmove too.
pub fn put_octets(out: &mut [u8], s: &[u8]) -> usize
    requires { length s.now ≤ length out.old }
    ensures value { result ≡ length s.now }
    ensures out_after { out.new ≡ over s.now out.old }
{
    for i in 0..s.len() {
        out[i] = s[i];
    }
    s.len()
}

// A number in two octets, little-endian.
pub fn put_u16(out: &mut [u8], n: u16) -> usize
    requires { 2 ≤ length out.old }
    ensures value { result ≡ 2 }
    ensures out_after { out.new ≡ over (little_octets 2 n) out.old }
{
    put_octets(out, &n.to_le_bytes())
}

// A number in four octets, little-endian.
pub fn put_u32(out: &mut [u8], n: u32) -> usize
    requires { 4 ≤ length out.old }
    ensures value { result ≡ 4 }
    ensures out_after { out.new ≡ over (little_octets 4 n) out.old }
{
    put_octets(out, &n.to_le_bytes())
}

// The same at an offset; the result is the offset after what was written.
pub fn put_octets_at(out: &mut [u8], at: usize, s: &[u8]) -> usize
    requires { at + length s.now ≤ length out.old }
    ensures value { result ≡ at + length s.now }
    ensures out_after { out.new ≡ over_at at s.now out.old }
{
    at + put_octets(&mut out[at..], s)
}

pub fn put_u16_at(out: &mut [u8], at: usize, n: u16) -> usize
    requires { at + 2 ≤ length out.old }
    ensures value { result ≡ at + 2 }
    ensures out_after { out.new ≡ over_at at (little_octets 2 n) out.old }
{
    at + put_u16(&mut out[at..], n)
}

pub fn put_u32_at(out: &mut [u8], at: usize, n: u32) -> usize
    requires { at + 4 ≤ length out.old }
    ensures value { result ≡ at + 4 }
    ensures out_after { out.new ≡ over_at at (little_octets 4 n) out.old }
{
    at + put_u32(&mut out[at..], n)
}
