// Texts of a reply, quoted: printable ASCII as it is, any other octet as \hh, any other UTF-16 unit as \uhhhh.
use std::fmt;
use std::fmt::Display;

pub fn is_printable(x: u8) -> bool {
    matches!(x, b' '..=b'~')
}

// Whether an octet can stand in quotes as it is.
fn is_plain(x: u8) -> bool {
    is_printable(x) & !matches!(x, b'"' | b'\\')
}

#[derive(Clone, Copy)]
pub struct Quoted<'a>(pub &'a [u8]);

fn put_octet<W: fmt::Write>(f: &mut fmt::Formatter<W>, octet: u8) -> fmt::Result {
    if is_plain(octet) {
        write!(f, "{}", char::from(octet))
    } else {
        write!(f, "\\{octet:02x}")
    }
}

impl Display for Quoted<'_> {
    fn fmt<W: fmt::Write>(&self, f: &mut fmt::Formatter<W>) -> fmt::Result {
        write!(f, "\"")?;
        for octet in self.0 {
            put_octet(f, *octet)?;
        }
        write!(f, "\"")
    }
}

// A text in UTF-16LE. Half a unit is not shown.
#[derive(Clone, Copy)]
pub struct QuotedUtf16<'a>(pub &'a [u8]);

fn put_unit<W: fmt::Write>(f: &mut fmt::Formatter<W>, unit: u16) -> fmt::Result {
    match u8::try_from(unit) {
        Ok(octet) if is_plain(octet) => write!(f, "{}", char::from(octet)),
        _ => write!(f, "\\u{unit:04x}"),
    }
}

impl Display for QuotedUtf16<'_> {
    fn fmt<W: fmt::Write>(&self, f: &mut fmt::Formatter<W>) -> fmt::Result {
        write!(f, "\"")?;
        for unit in self.0.as_chunks::<2>().0 {
            put_unit(f, u16::from_le_bytes(*unit))?;
        }
        write!(f, "\"")
    }
}
