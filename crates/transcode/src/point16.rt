// UTF-16LE, code point by code point. The offset after one is told with it: worked out from the code point, it would make each turn of
// a loop wait for what the last one read.
ghost use Rattle.transcode.specs.Internal.Point16.{PointRead16};

use octets::number::u16_at;
use unicode_text::utf8::PointAt;

const FIRST_HIGH: u32 = 0xD800;

const FIRST_LOW: u32 = 0xDC00;

const AFTER_LOW: u32 = 0xE000;

// What stands at an offset: the text's end, half a unit or a lone surrogate, or a code point and the offset after it.
pub fn point16_at(s: &[u8], at: usize) -> PointAt
    ensures { PointRead16 s.now at result }
{
    if s.len() <= at {
        return PointAt::End;
    }
    if s.len() - at < 2 {
        return PointAt::Bad;
    }
    let unit = u16_at(s, at) as u32;
    if (unit < FIRST_HIGH) | (AFTER_LOW <= unit) {
        return PointAt::Point {
            point: unit,
            next: at + 2,
        };
    }
    if FIRST_LOW <= unit {
        return PointAt::Bad;
    }
    if s.len() - at < 4 {
        return PointAt::Bad;
    }
    let low = u16_at(s, at + 2) as u32;
    if (low < FIRST_LOW) | (AFTER_LOW <= low) {
        return PointAt::Bad;
    }
    PointAt::Point {
        point: (0x40 + unit % 1024) * 1024 + low % 1024,
        next: at + 4,
    }
}
