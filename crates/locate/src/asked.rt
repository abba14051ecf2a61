// What the arguments after CLIENT ask with.
use arguments::fault::{Fault, Shown};
use console::hex::{decode, is_hex};
use std::env::Env;

// The room for a filter or a message: more than either may have, so that a longer one gets its number.
pub const ASKED_SIZE: usize = 4096;

// The first argument after CLIENT.
pub const AFTER_CLIENT: usize = 3;

// The longest argument that Linux hands over. What lends so much room is not inlined, so that not every run claims it.
pub const WORD_SIZE: usize = 131072;

// Whether the first argument after CLIENT is an option.
pub fn is_asked<E: Env>(env: &E, option: &[u8]) -> bool {
    let mut word = [0u8; 16];
    match env.arg(AFTER_CLIENT, &mut word) {
        Ok(len) => &word[..len] == option,
        Err(_) => false,
    }
}

// Puts the octets of the argument HEX at the front of lent room: how many. Where they don't fit, all of the room asks, since it gets the
// number of what is too long, where the table gets none.
pub fn octets_asked(digits: &[u8], wanted: &'static str, room: &mut [u8]) -> Result<usize, Fault> {
    if (digits.len() % 2 == 0) & (room.len() < digits.len() / 2) {
        return Ok(room.len());
    }
    if !is_hex(digits) {
        return Err(Fault::Of(wanted, Shown::of(digits)));
    }
    Ok(decode(digits, room))
}
