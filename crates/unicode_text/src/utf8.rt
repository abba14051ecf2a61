// UTF-8 by RFC 3629, code point by code point. A character is decoded from its octets as numbers, since lending a slice to a call
// that is not inlined costs more than decoding.
ghost use Rattle.std.specs.Prelude.{◌≡◌, cond, ◌≤◌, ◌<◌, eqb, get_or};
ghost use Rattle.unicode_text.specs.Utf8.{is_utf8};
ghost use Rattle.unicode_text.specs.Internal.Point.{point_limit, PointRead, SixBits, CodeOf, size_of};

use octets::number::wide;

// One past the last code point: what is decoded where no character stands.
pub const NO_POINT: u32 = 0x110000;

// What stands at an offset: the text's end, octets that are no UTF-8, or a code point and the offset after it.
#[derive(Drop)]
pub enum PointAt {
    End,
    Bad,
    Point { point: u32, next: usize },
}

// The octet at an offset; past the end 0, which is no later octet of a character.
pub fn octet_at(s: &[u8], at: usize) -> u8
    ensures { result ≡ get_or s.now at 0 }
{
    if s.len() <= at {
        return 0;
    }
    s[at]
}

// The six bits of a later octet; 64 where it is not of this range.
fn six_bits(x: u8, low: u8, high: u8) -> u8
    ensures { SixBits x low high result }
{
    if x < low {
        return 64;
    }
    if high < x {
        return 64;
    }
    x % 64
}

// The range of a second octet ends elsewhere behind one lead: so overlong forms, surrogates and what is past 10FFFFh are kept out.
fn second_bound(lead: u8, one: u8, its: u8, usual: u8) -> u8
    ensures { result ≡ cond (eqb lead one) its usual }
{
    if lead == one {
        return its;
    }
    usual
}

// The code point of two octets. An octet of ASCII leads none, so that who compares need not test for it.
pub fn point_of_two(lead: u8, second: u8) -> u32
    requires { lead < 0xE0 }
    ensures code_of { 0x80 ≤ lead → CodeOf 2 lead second 0 0 result }
    ensures le_lead { result < point_limit → 0x80 ≤ lead }
{
    if lead < 0xC2 {
        return NO_POINT;
    }
    let y = six_bits(second, 0x80, 0xBF);
    if 63 < y {
        return NO_POINT;
    }
    wide(lead % 32) * 64 + wide(y)
}

fn point_of_three(lead: u8, second: u8, third: u8) -> u32
    requires { (0xE0 ≤ lead) × (lead < 0xF0) }
    ensures { CodeOf 3 lead second third 0 result }
{
    let low = second_bound(lead, 0xE0, 0xA0, 0x80);
    let high = second_bound(lead, 0xED, 0x9F, 0xBF);
    let y = six_bits(second, low, high);
    if 63 < y {
        return NO_POINT;
    }
    let z = six_bits(third, 0x80, 0xBF);
    if 63 < z {
        return NO_POINT;
    }
    (wide(lead % 16) * 64 + wide(y)) * 64 + wide(z)
}

fn point_of_four(lead: u8, second: u8, third: u8, fourth: u8) -> u32
    requires { (0xF0 ≤ lead) × (lead < 0xF5) }
    ensures { CodeOf 4 lead second third fourth result }
{
    let low = second_bound(lead, 0xF0, 0x90, 0x80);
    let high = second_bound(lead, 0xF4, 0x8F, 0xBF);
    let x = six_bits(second, low, high);
    if 63 < x {
        return NO_POINT;
    }
    let y = six_bits(third, 0x80, 0xBF);
    if 63 < y {
        return NO_POINT;
    }
    let z = six_bits(fourth, 0x80, 0xBF);
    if 63 < z {
        return NO_POINT;
    }
    ((wide(lead % 8) * 64 + wide(x)) * 64 + wide(y)) * 64 + wide(z)
}

// The code point of three octets or four, as the first tells.
pub fn point_of_more(lead: u8, second: u8, third: u8, fourth: u8) -> u32
    requires { 0xE0 ≤ lead }
    ensures { CodeOf (size_of lead) lead second third fourth result }
{
    if lead < 0xF0 {
        return point_of_three(lead, second, third);
    }
    if lead < 0xF5 {
        return point_of_four(lead, second, third, fourth);
    }
    NO_POINT
}

// The code point of octets of which the first is no ASCII.
pub fn point_of(lead: u8, second: u8, third: u8, fourth: u8) -> u32
    requires { 0x80 ≤ lead }
    ensures { CodeOf (size_of lead) lead second third fourth result }
{
    if lead < 0xE0 {
        return point_of_two(lead, second);
    }
    point_of_more(lead, second, third, fourth)
}

// How many octets a character has, by the first.
pub fn size_of(lead: u8) -> usize
    ensures { result ≡ size_of lead }
{
    if lead < 0x80 {
        return 1;
    }
    if lead < 0xE0 {
        return 2;
    }
    if lead < 0xF0 {
        return 3;
    }
    4
}

pub fn point_at(s: &[u8], at: usize) -> PointAt
    ensures { PointRead s.now at result }
{
    if s.len() <= at {
        return PointAt::End;
    }
    let lead = s[at];
    if lead < 0x80 {
        return PointAt::Point {
            point: wide(lead),
            next: at + 1,
        };
    }
    let point = point_of(
        lead,
        octet_at(s, at + 1),
        octet_at(s, at + 2),
        octet_at(s, at + 3),
    );
    if NO_POINT <= point {
        return PointAt::Bad;
    }
    PointAt::Point {
        point,
        next: at + size_of(lead),
    }
}

// A character has one octet to four: the step is no count, and so no `for`.
pub fn is_utf8(s: &[u8]) -> bool
    ensures { result ≡ is_utf8 s.now }
{
    let mut at = 0;
    loop {
        let here = point_at(s, at);
        match here {
            PointAt::End => return true,
            PointAt::Bad => return false,
            PointAt::Point { point: _, next } => at = next,
        }
    }
}
