// Octets as hex digits, two for each.
ghost use Rattle.std.specs.Char.{digit_value};
ghost use Rattle.std.specs.Prelude.{◌≡◌, ◌+◌, ◌*◌, ◌<◌, ◌≤◌, IfOk, IfSome, SomeIff, length, vec_len};

use std::alloc::{AllocError, Global};
use std::fmt::Display;
use std::io::Write;
use std::{fmt, io};

// How many octets a Formatter is given at a time: each by itself takes a hundred times as long.
const PART: usize = 128;

// How many a stream is given by one write.
const WRITTEN: usize = 4096;

// Octets, shown in lowercase digits.
#[derive(Clone, Copy)]
pub struct Hex<'a>(pub &'a [u8]);

// The digit of a value under 16. It is computed, since a table takes three times as long.
fn digit_of(value: u8) -> u8 {
    if value < 10 {
        value.wrapping_add(b'0')
    } else {
        value.wrapping_add(b'a' - 10)
    }
}

// Puts the digits of octets at the front of out: how many, no more than fit.
fn put_digits(octets: &[u8], out: &mut [u8]) -> usize
    ensures { result ≤ length out.new }
{
    let count = octets.len().min(out.len() / 2);
    for i in 0..count {
        let octet = octets[i];
        out[2 * i] = digit_of(octet / 16);
        out[2 * i + 1] = digit_of(octet % 16);
    }
    2 * count
}

impl Display for Hex<'_> {
    fn fmt<W: fmt::Write>(&self, f: &mut fmt::Formatter<W>) -> fmt::Result {
        let mut digits = [0; 2 * PART];
        for octets in self.0.chunks(PART) {
            let len = put_digits(octets, &mut digits);
            let Ok(text) = str::from_utf8(&digits[..len]) else {
                return Err(fmt::Error);
            };
            f.write_str(text)?;
        }
        Ok(())
    }
}

// The same to a stream, which takes octets as they are: a Formatter wants them held to be text, which takes twice the time.
pub fn say_hex<W: Write>(to: &mut W, octets: &[u8]) -> io::Result<()> {
    for octets in octets.chunks(WRITTEN) {
        let mut digits = [0; 2 * WRITTEN];
        let len = put_digits(octets, &mut digits);
        to.write_all(&digits[..len])?;
    }
    Ok(())
}

// The octet that two digits of either case stand for.
pub fn hex_octet(high: u8, low: u8) -> Option<u8>
    ensures { SomeIff result ((digit_value high < 16) × (digit_value low < 16)) (digit_value high * 16 + digit_value low) }
{
    let high = char::from(high).to_digit(16)?;
    let low = char::from(low).to_digit(16)?;
    Some((high * 16 + low) as u8)
}

// Whether a text is digits of either case, two for each octet.
pub fn is_hex(text: &[u8]) -> bool {
    (text.len() % 2 == 0) & text.iter().all(|x| x.is_ascii_hexdigit())
}

// The octets that two digits of either case each stand for, at the front of out: how many, no more than fit. Another pair stands for 0.
pub fn decode(text: &[u8], out: &mut [u8]) -> usize
    ensures fits { result ≤ length out.new }
    ensures pairs { 2 * result ≤ length text.now }
    ensures full { 2 * length out.new ≤ length text.now → result ≡ length out.new }
    ensures whole { length text.now ≤ 2 * length out.new + 1 → length text.now ≤ 2 * result + 1 }
{
    let (pairs, _) = text.as_chunks::<2>();
    let count = pairs.len().min(out.len());
    for i in 0..count {
        let [high, low] = pairs[i];
        out[i] = hex_octet(high, low).unwrap_or(0);
    }
    count
}

// The octets that digits stand for; nothing where some octet is no digit, or one digit is left over.
pub fn hex_octets(alloc: Global, text: &[u8]) -> Result<Option<Vec<u8>>, AllocError>
    ensures { IfOk result (λ found. IfSome found (λ octets. 2 * vec_len octets ≡ length text.now)) }
{
    let (pairs, rest) = text.as_chunks::<2>();
    if !rest.is_empty() {
        return Ok(None);
    }
    let mut octets = Vec::with_capacity(alloc, pairs.len())?;
    for [high, low] in pairs {
        let Some(octet) = hex_octet(*high, *low) else {
            return Ok(None);
        };
        octets.push(octet)?;
    }
    Ok(Some(octets))
}

#[cfg(test)]
mod tests {
    use super::*;
    use std::test::Fail;

    #[test]
    fn digits_and_octets(rt: HostRuntime) -> Result<(), Fail> {
        let mut room = [7; 2];
        assert_eq!(rt; decode(b"00a5Ff", &mut room), 2);
        assert_eq!(rt; room, [0, 0xA5]);
        assert_eq!(rt; is_hex(b"00a5Ff") & !is_hex(b"0") & !is_hex(b"0g"), true);
        let octets = hex_octets(rt.alloc(), b"00a5Ff")?;
        assert_eq!(rt; octets.as_deref(), Some([0, 0xA5, 0xFF].as_slice()));
        let text = format!(in rt.alloc(); "{}", Hex(&[0, 0xA5, 0xFF]))?;
        assert_eq!(rt; text.as_str(), "00a5ff");
        assert_eq!(rt; hex_octets(rt.alloc(), b"0")?.is_none(), true);
        assert_eq!(rt; hex_octets(rt.alloc(), b"0g")?.is_none(), true);
        Ok(())
    }
}
