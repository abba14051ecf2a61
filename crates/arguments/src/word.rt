// An argument as it was given.
ghost use Rattle.std.specs.Prelude.{◌≡◌, ◌+◌, ◌≤◌, IfOk, IfSome, length};

use crate::fault::Fault;
use std::env::{Env, FillError};

// Whether there are more arguments than a number, the program's own name counted.
pub fn has_word<E: Env>(env: &E, number: usize) -> bool {
    match env.arg(number, &mut []) {
        Err(FillError::NotPresent) => false,
        Err(FillError::TooLong) | Ok(_) => true,
    }
}

// An argument that has to be there, put at the front of lent room.
pub fn take_word<'a, E: Env>(
    env: &E,
    number: usize,
    name: &'static str,
    room: &'a mut [u8],
) -> Result<&'a [u8], Fault>
    ensures { IfOk result (λ word. length word.now ≤ length room.old) }
{
    match env.arg(number, room) {
        Ok(len) => Ok(&room[..len]),
        Err(FillError::NotPresent) => Err(Fault::Missing(name)),
        Err(FillError::TooLong) => Err(Fault::TooLong(name)),
    }
}

// What stands before and behind the first `=`.
pub fn split_word(text: &[u8]) -> Option<(&[u8], &[u8])>
    ensures { IfSome result (λ parts. length parts.0.now + 1 + length parts.1.now ≡ length text.now) }
{
    let equals = text.iter().position(|x| *x == b'=')?;
    Some((&text[..equals], &text[equals + 1..]))
}

#[cfg(test)]
mod tests {
    use super::*;

    #[test]
    fn the_program_has_a_name(rt: HostRuntime) {
        assert_eq!(rt; has_word(&rt, 0), true);
        let mut room = [0; 4096];
        assert_eq!(rt;
            take_word(&rt, 0, "NAME", &mut room).is_ok_and(|name| !name.is_empty()),
            true
        );
        assert_eq!(rt; take_word(&rt, 0, "NAME", &mut room[..0]).is_err(), true);
        assert_eq!(rt; take_word(&rt, 1000, "NAME", &mut room).is_err(), true);
    }
}
