// A text in UTF-8 as UTF-16LE: its size, and its octets.
ghost use Rattle.std.specs.Prelude.{◌≡◌, ◌*◌, ◌≤◌, ◌<◌, length};
ghost use Rattle.octets.specs.Buffer.{over};
ghost use Rattle.unicode_text.specs.Utf16.{point_octets, utf16};
ghost use Rattle.unicode_text.specs.Internal.Point.{point_limit};

use crate::utf8::{PointAt, point_at};
use lent::put::{put_u16, put_u16_at};

// The first code point that takes two units.
const TWO_UNITS_FROM: u32 = 0x10000;

fn point_size(point: u32) -> usize
    ensures { (result ≡ length (point_octets point)) × (result ≤ 4) }
{
    if point < TWO_UNITS_FROM {
        return 2;
    }
    4
}

// How many octets a text takes; none where it is not UTF-8. A character has one octet to four: no `for`. The two ways between UTF-8 and
// UTF-16 differ in decoder, sizes, encoder and what no text gives: a trait of these with its laws would be longer than both.
pub fn utf16_size(s: &[u8]) -> usize
    requires { length s.now ≤ 255 }
    ensures { (result ≡ length (utf16 s.now)) × (result ≤ 4 * length s.now) }
{
    let mut size = 0;
    let mut at = 0;
    loop {
        let here = point_at(s, at);
        match here {
            PointAt::End => return size,
            PointAt::Bad => return 0,
            PointAt::Point { point, next } => {
                size += point_size(point);
                at = next;
            }
        }
    }
}

// One unit, or a high and a low surrogate.
fn put_point(out: &mut [u8], point: u32) -> usize
    requires { (point < point_limit) × (length (point_octets point) ≤ length out.old) }
    ensures value { result ≡ length (point_octets point) }
    ensures out_after { out.new ≡ over (point_octets point) out.old }
{
    if point < TWO_UNITS_FROM {
        return put_u16(out, point as u16);
    }
    let above = point - TWO_UNITS_FROM;
    let at = put_u16(out, (0xD800 + above / 1024) as u16);
    put_u16_at(out, at, (0xDC00 + above % 1024) as u16)
}

// A text at the front of a buffer; nothing where it is not UTF-8. The step is a character's: no `for`.
pub fn put_utf16(out: &mut [u8], s: &[u8]) -> usize
    requires { (length s.now ≤ 255) × (length (utf16 s.now) ≤ length out.old) }
    ensures value { result ≡ length (utf16 s.now) }
    ensures out_after { out.new ≡ over (utf16 s.now) out.old }
{
    let size = utf16_size(s);
    let mut written = 0;
    let mut at = 0;
    while written < size {
        let here = point_at(s, at);
        match here {
            PointAt::End => return written,
            PointAt::Bad => return written,
            PointAt::Point { point, next } => {
                written += put_point(&mut out[written..], point);
                at = next;
            }
        }
    }
    written
}
