// Texts in UTF-16LE that a user's name may be, character by character.
ghost use Rattle.std.specs.Prelude.{◌≡◌, true, ◌+◌, ◌*◌, ◌≤◌, ◌<◌, length};
ghost use Rattle.octets.specs.Number.{u16_at};
ghost use Rattle.transcode.specs.Transcode.{are_octets};
ghost use Rattle.mailslot.specs.Internal.Runs.{CharacterSize, octets_for, Running, TextRun};

use octets::name_rule::USER_NAME_MOST;
use octets::number::u16_at;
use transcode::octet::first_octet;

// A character past FFFFh has two units, a high and then a low surrogate.
const FIRST_HIGH: u16 = 0xD800;

const FIRST_LOW: u16 = 0xDC00;

const AFTER_LOW: u16 = 0xE000;

// The octets of UTF-8 of a pair of surrogates: 4, or 0 where the unit stands alone.
fn pair_size(s: &[u8], at: usize, unit: u16) -> usize
    requires { (at + 2 ≤ length s.now) × (unit ≡ u16_at s.now at) × (0xD800 ≤ unit) × (unit < 0xE000) }
    ensures { CharacterSize s.now at result }
{
    if FIRST_LOW <= unit {
        return 0;
    }
    if s.len() - at < 4 {
        return 0;
    }
    let low = u16_at(s, at + 2);
    if (low < FIRST_LOW) | (AFTER_LOW <= low) {
        return 0;
    }
    4
}

// The octets of UTF-8 of the character at an offset; 0 at a zero unit and at a lone surrogate.
fn character_size(s: &[u8], at: usize) -> usize
    requires { at + 2 ≤ length s.now }
    ensures { CharacterSize s.now at result }
{
    let unit = u16_at(s, at);
    if unit == 0 {
        return 0;
    }
    if unit < 0x80 {
        return 1;
    }
    if unit < 0x800 {
        return 2;
    }
    if (unit < FIRST_HIGH) | (AFTER_LOW <= unit) {
        return 3;
    }
    pair_size(s, at, unit)
}

// The octets of the same character in UTF-16LE.
fn octets_for(size: usize) -> usize
    ensures { (result ≡ octets_for size) × (2 ≤ result) × (result ≤ 4) }
{
    if size < 4 {
        return 2;
    }
    4
}

// How many plain letters stand from an offset on, of one octet of UTF-8 each, as most texts have no others: no more than a user may have.
fn plain_run(s: &[u8], start: usize) -> usize
    requires { (start ≤ length s.now) × (are_octets s.now ≡ true) }
    ensures { Running s.now start (start + 2 * result) result }
{
    let units = ((s.len() - start) / 2).min(USER_NAME_MOST);
    for i in 0..units {
        let unit = u16_at(s, start + 2 * i);
        if (unit == 0) | (0x7F < unit) {
            return i;
        }
    }
    units
}

// Where the longest user from an offset on ends: it stops at a zero unit, at a lone surrogate, and before the character
// that is too much. The step is a character's: no `for`.
pub fn text_run(s: &[u8], start: usize) -> usize
    requires { start ≤ length s.now }
    ensures { TextRun s.now start result }
{
    // Compiled to nothing: it tells the proof that these are octets.
    let _octet = first_octet(s);
    let mut size = plain_run(s, start);
    let mut at = start + 2 * size;
    while 2 <= s.len() - at {
        let here = character_size(s, at);
        if here == 0 {
            return at;
        }
        if USER_NAME_MOST < size + here {
            return at;
        }
        size += here;
        at += octets_for(here);
    }
    at
}
