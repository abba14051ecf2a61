// The words of an answer.
use answers::{Refusal, number_in};
use console::hex::say_hex;
use std::io;
use std::io::Write;

// The first words of an answer: the kind of its line, and numbers.
pub fn say_numbers<W: Write>(to: &mut W, kind: &str, numbers: &[u64]) -> io::Result<()> {
    write!(to, "{kind}")?;
    for number in numbers {
        write!(to, " {number}")?;
    }
    Ok(())
}

// Octets as a word: none at all is `-`.
pub fn say_octets<W: Write>(to: &mut W, octets: &[u8]) -> io::Result<()> {
    if octets.is_empty() {
        return write!(to, " -");
    }
    write!(to, " ")?;
    say_hex(to, octets)
}

// A text as a word: `=` and two digits for each octet.
pub fn say_text<W: Write>(to: &mut W, octets: &[u8]) -> io::Result<()> {
    write!(to, " =")?;
    say_hex(to, octets)
}

// A line of another shape, or of a kind that no call answers.
pub fn say_unknown<W: Write>(to: &mut W) -> io::Result<()> {
    write!(to, "?")
}

// The answer of a call that writes, and the buffer that was lent to it.
pub fn say_written<W: Write>(
    to: &mut W,
    kind: &str,
    written: Result<usize, Refusal>,
    out: &[u8],
) -> io::Result<()> {
    let number = number_in(&written);
    let length = written.unwrap_or(0);
    say_numbers(to, kind, &[number as u64, length as u64])?;
    say_octets(to, out)
}
