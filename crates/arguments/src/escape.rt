// Octets as they stand, or as \hh.
ghost use Rattle.std.specs.Prelude.{◌<◌, ◌≤◌, ◌≡◌, IfOk, IfSome, length};

use console::hex::hex_octet;

#[derive(Clone, Copy)]
pub enum EscapeError {
    BadEscape,
    TooLong,
}

// The first octet of a text, one as it stands or \hh, and what is left.
fn split_octet(text: &[u8]) -> Option<(u8, &[u8])>
    ensures { IfSome result (λ first. length first.1.now < length text.now) }
{
    match text {
        [b'\\', high, low, rest @ ..] => Some((hex_octet(*high, *low)?, rest)),
        [b'\\', ..] | [] => None,
        [octet, rest @ ..] => Some((*octet, rest)),
    }
}

// The octets that a text stands for, at the front of out: how many.
pub fn unescape(text: &[u8], out: &mut [u8]) -> Result<usize, EscapeError>
    ensures fits { IfOk result (λ len. len ≤ length out.new) }
    ensures room { length out.new ≡ length out.old }
{
    let mut len = 0;
    let mut rest = text;
    // A step is of one octet or of three: no `for`.
    while !rest.is_empty() {
        let Some((octet, after)) = split_octet(rest) else {
            return Err(EscapeError::BadEscape);
        };
        if out.len() <= len {
            return Err(EscapeError::TooLong);
        }
        out[len] = octet;
        len += 1;
        rest = after;
    }
    Ok(len)
}

#[cfg(test)]
mod tests {
    use super::*;

    #[test]
    fn octets_and_escapes(rt: HostRuntime) {
        let mut room = [7; 2];
        assert_eq!(rt; unescape(b"a\\Ff", &mut room).ok(), Some(2));
        assert_eq!(rt; room, [b'a', 0xFF]);
        assert_eq!(rt; unescape(b"abc", &mut room).is_err(), true);
        assert_eq!(rt; unescape(b"a\\f", &mut room).is_err(), true);
    }
}
