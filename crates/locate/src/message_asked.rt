// The mailslot message that the arguments after --mailslot ask with: written from words, or given as it is.
use crate::asked::{AFTER_CLIENT, WORD_SIZE, octets_asked};
use arguments::fault::{Fault, Shown};
use arguments::message_word::{TEXTS_SIZE, Words, read_word};
use arguments::word::{has_word, take_word};
use mailslot::message::Message;
use mailslot_write::write::write_message;
use octets::part::{Stretch, part};
use std::env::Env;

const FIRST_WORD: usize = AFTER_CLIENT + 1;

// Reads one more word than those that are given.
#[inline(never)]
fn add_word<E: Env>(
    env: &E,
    number: usize,
    source: &mut [u8],
    words: &mut Words,
) -> Result<(), Fault> {
    let mut room = [0; WORD_SIZE];
    let word = take_word(env, number, "a word", &mut room)?;
    match read_word(word, source, words) {
        Ok(()) => Ok(()),
        Err(error) => Err(Fault::Word(error, Shown::of(word))),
    }
}

fn words_asked<E: Env>(env: &E, source: &mut [u8]) -> Result<Words, Fault> {
    let mut words = Words::default();
    for i in FIRST_WORD..usize::MAX {
        if !has_word(env, i) {
            break;
        }
        add_word(env, i, source, &mut words)?;
    }
    Ok(words)
}

fn text_of(word: Option<Stretch>) -> Stretch {
    word.unwrap_or(Stretch { start: 0, len: 0 })
}

// The message of the words: what is not given is empty, or 0.
fn message_of(words: Words) -> Message {
    Message {
        repeat: words.repeat.unwrap_or(0),
        computer: text_of(words.computer),
        user: text_of(words.user),
        mailslot: text_of(words.mailslot),
        bits: words.bits.unwrap_or(0),
        sid: text_of(words.sid),
        version: words.version.unwrap_or(0),
    }
}

// Words that no message can have ask with all of the room, which is too long.
fn written_message<E: Env>(env: &E, room: &mut [u8]) -> Result<usize, Fault> {
    let mut source = [0; TEXTS_SIZE];
    let words = words_asked(env, &mut source)?;
    Ok(write_message(&source, message_of(words), room).unwrap_or(room.len()))
}

// Whether the first argument after --mailslot is WORD=VALUE.
#[inline(never)]
fn has_equals<E: Env>(env: &E) -> bool {
    let mut room = [0; WORD_SIZE];
    take_word(env, FIRST_WORD, "HEX", &mut room).is_ok_and(|word| word.contains(&b'='))
}

// The octets of the argument HEX after --mailslot.
#[inline(never)]
fn given_message<E: Env>(env: &E, room: &mut [u8]) -> Result<usize, Fault> {
    if has_word(env, FIRST_WORD + 1) {
        return Err(Fault::Slip("no argument is taken after --mailslot HEX\n"));
    }
    let mut word = [0; WORD_SIZE];
    let digits = take_word(env, FIRST_WORD, "HEX", &mut word)?;
    octets_asked(
        digits,
        "--mailslot takes two hex digits for each octet, or words as User=ann",
        room,
    )
}

// The message, put at the front of lent room.
pub fn message_asked<'a, E: Env>(env: &E, room: &'a mut [u8]) -> Result<&'a [u8], Fault> {
    if !has_word(env, FIRST_WORD) {
        return Err(Fault::Slip("neither HEX nor WORD=VALUE is given after --mailslot\n"));
    }
    let len = if has_equals(env) {
        written_message(env, room)?
    } else {
        given_message(env, room)?
    };
    Ok(part(room, 0, len))
}
