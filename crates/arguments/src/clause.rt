// CLAUSE=VALUE: a clause's name, ASCII case ignored, and its octets. NtVer and AAC may be numbers; octets stand as they are or as \hh.
ghost use Rattle.std.specs.Prelude.{◌≤◌, IfOk, length};

use crate::escape::{EscapeError, unescape};
use crate::number::number_of;
use crate::word::split_word;
use filter::request::{ClauseName, Request};
use filter_gather::gather::name_of;
use octets::part::Stretch;
use std::fmt;
use std::fmt::Display;

// Each clause has room of its own in the source, as much as a filter may have.
const VALUE_MOST: usize = 2048;

pub const SOURCE_SIZE: usize = 8 * VALUE_MOST;

// What is wrong with a clause.
#[derive(Clone, Copy)]
pub enum ClauseError {
    NoEquals,
    UnknownName,
    Twice,
    BadNumber,
    BadEscape,
    TooLong,
}

impl Display for ClauseError {
    fn fmt<W: fmt::Write>(&self, f: &mut fmt::Formatter<W>) -> fmt::Result {
        f.write_str(match self {
            ClauseError::NoEquals => "not CLAUSE=VALUE",
            ClauseError::UnknownName => {
                "no clause is called so (DnsDomain, Host, DnsHostName, User, AAC, DomainSid, DomainGuid, NtVer are)"
            }
            ClauseError::Twice => "a clause of this name is given twice",
            ClauseError::BadNumber => {
                "NtVer and AAC take a number, as 6 or 0x10, or octets, as \\06\\00\\00\\00"
            }
            ClauseError::BadEscape => "a backslash takes two hex digits after it",
            ClauseError::TooLong => "longer than any filter",
        })
    }
}

impl From<EscapeError> for ClauseError {
    fn from(error: EscapeError) -> ClauseError {
        match error {
            EscapeError::BadEscape => ClauseError::BadEscape,
            EscapeError::TooLong => ClauseError::TooLong,
        }
    }
}

// Where a clause's room starts in the source.
fn room_start(name: ClauseName) -> usize
    ensures { result ≤ 14336 }
{
    match name {
        ClauseName::DnsDomain => 0,
        ClauseName::Host => VALUE_MOST,
        ClauseName::DnsHostName => 2 * VALUE_MOST,
        ClauseName::User => 3 * VALUE_MOST,
        ClauseName::Aac => 4 * VALUE_MOST,
        ClauseName::DomainSid => 5 * VALUE_MOST,
        ClauseName::DomainGuid => 6 * VALUE_MOST,
        ClauseName::NtVer => 7 * VALUE_MOST,
    }
}

// A number is four octets, the least significant first. One may be given as octets too: with \hh in front, or none at all.
fn put_value(name: ClauseName, text: &[u8], out: &mut [u8]) -> Result<usize, ClauseError>
    ensures { IfOk result (λ len. len ≤ length out.new) }
{
    let is_number = matches!(name, ClauseName::Aac | ClauseName::NtVer);
    if !is_number | matches!(text, [] | [b'\\', ..]) {
        return Ok(unescape(text, out)?);
    }
    let Some(number) = number_of(text) else {
        return Err(ClauseError::BadNumber);
    };
    let Some(octets) = out.first_chunk_mut::<4>() else {
        return Err(ClauseError::TooLong);
    };
    *octets = number.to_le_bytes();
    Ok(4)
}

// Puts the octets of one more clause into its room of the source, and adds it to the request.
pub fn read_clause(
    text: &[u8],
    source: &mut [u8],
    request: Request,
) -> Result<Request, ClauseError> {
    let Some((name, value)) = split_word(text) else {
        return Err(ClauseError::NoEquals);
    };
    let Some(name) = name_of(name) else {
        return Err(ClauseError::UnknownName);
    };
    if request.clause(name).is_some() {
        return Err(ClauseError::Twice);
    }
    let start = room_start(name);
    let Some(room) = source.get_mut(start..start + VALUE_MOST) else {
        return Err(ClauseError::TooLong);
    };
    let len = put_value(name, value, room)?;
    Ok(request.with(name, Some(Stretch { start, len })))
}

#[cfg(test)]
mod tests {
    use super::*;
    use filter::request::no_clauses;
    use octets::part::part;

    #[test]
    fn clauses_are_read(rt: HostRuntime) {
        let mut source = [0; SOURCE_SIZE];
        let Ok(request) = read_clause(b"ntver=6", &mut source, no_clauses()) else {
            panic!(rt; "NtVer is a number");
        };
        let Ok(request) = read_clause(b"User=a\\00", &mut source, request) else {
            panic!(rt; "User has octets");
        };
        assert_eq!(rt; request.nt_ver.map(|number| number.start), Some(14336));
        assert_eq!(rt; part(&source, 14336, 4), [6, 0, 0, 0].as_slice());
        assert_eq!(rt; request.user.map(|user| user.len), Some(2));
        assert_eq!(rt; part(&source, 6144, 2), [b'a', 0].as_slice());
        assert_eq!(rt; read_clause(b"USER=b", &mut source, request).is_err(), true);
        let mut short = [0; 2048];
        assert_eq!(rt; read_clause(b"Host=b", &mut short, request).is_err(), true);
    }
}
