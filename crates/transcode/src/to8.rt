// A UTF-16LE text as UTF-8: its size, and its octets.
ghost use Rattle.std.specs.Prelude.{◌≡◌, ◌≤◌, ◌<◌, length};
ghost use Rattle.octets.specs.Buffer.{over};
ghost use Rattle.unicode_text.specs.Utf8.{utf8_of};
ghost use Rattle.unicode_text.specs.Internal.Point.{point_limit};
ghost use Rattle.transcode.specs.Internal.Text8.{utf8_text, SizeTold};

use crate::point16::point16_at;
use unicode_text::utf8::PointAt;

fn width(point: u32) -> usize
    ensures { (result ≡ length (utf8_of point)) × (result ≤ 4) }
{
    if point < 0x80 {
        return 1;
    }
    if point < 0x800 {
        return 2;
    }
    if point < 0x10000 {
        return 3;
    }
    4
}

// How many octets a text takes; nothing where it is none. The step is a character's: no `for`.
pub fn utf8_size(s: &[u8]) -> Option<usize>
    ensures { SizeTold s.now result }
{
    let mut size = 0;
    let mut at = 0;
    loop {
        let here = point16_at(s, at);
        match here {
            PointAt::End => return Some(size),
            PointAt::Bad => return None,
            PointAt::Point { point, next } => {
                size += width(point);
                at = next;
            }
        }
    }
}

fn put_point(out: &mut [u8], point: u32) -> usize
    requires { (point < point_limit) × (length (utf8_of point) ≤ length out.old) }
    ensures value { result ≡ length (utf8_of point) }
    ensures out_after { out.new ≡ over (utf8_of point) out.old }
{
    if point < 0x80 {
        out[0] = point as u8;
        return 1;
    }
    if point < 0x800 {
        out[0] = (0xC0 + point / 64) as u8;
        out[1] = (0x80 + point % 64) as u8;
        return 2;
    }
    if point < 0x10000 {
        out[0] = (0xE0 + point / 4096) as u8;
        out[1] = (0x80 + point / 64 % 64) as u8;
        out[2] = (0x80 + point % 64) as u8;
        return 3;
    }
    out[0] = (0xF0 + point / 262144) as u8;
    out[1] = (0x80 + point / 4096 % 64) as u8;
    out[2] = (0x80 + point / 64 % 64) as u8;
    out[3] = (0x80 + point % 64) as u8;
    4
}

// The step is a character's: no `for`. A text at the front of a buffer; nothing where it is none, which is known before an octet is written.
pub fn put_utf8(out: &mut [u8], s: &[u8]) -> usize
    requires { length (utf8_text s.now) ≤ length out.old }
    ensures value { result ≡ length (utf8_text s.now) }
    ensures out_after { out.new ≡ over (utf8_text s.now) out.old }
{
    let Some(size) = utf8_size(s) else {
        return 0;
    };
    let mut written = 0;
    let mut at = 0;
    while written < size {
        let here = point16_at(s, at);
        match here {
            PointAt::End => return written,
            PointAt::Bad => return written,
            PointAt::Point { point, next } => {
                written += put_point(&mut out[written..], point);
                at = next;
            }
        }
    }
    written
}
