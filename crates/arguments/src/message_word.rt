// WORD=VALUE of a mailslot message: a word, ASCII case ignored, and its number or its octets. Octets stand as they are or as \hh.
ghost use Rattle.std.specs.Prelude.{◌≤◌};

use crate::escape::{EscapeError, unescape};
use crate::number::number_of;
use crate::word::split_word;
use octets::part::{Stretch, part};
use std::fmt;
use std::fmt::Display;
use unicode_text::utf16::{put_utf16, utf16_size};

// The longest text that is turned into UTF-16.
const TEXT_MOST: usize = 255;

// Each word with octets has room of its own in the source.
const TEXT_ROOM: usize = 4 * TEXT_MOST;

pub const TEXTS_SIZE: usize = 4 * TEXT_ROOM;

// What is wrong with a word.
#[derive(Clone, Copy)]
pub enum WordError {
    NoEquals,
    UnknownWord,
    Twice,
    BadNumber,
    BadEscape,
    NotUtf8,
    TooLong,
}

impl Display for WordError {
    fn fmt<W: fmt::Write>(&self, f: &mut fmt::Formatter<W>) -> fmt::Result {
        f.write_str(match self {
            WordError::NoEquals => "not WORD=VALUE",
            WordError::UnknownWord => {
                "no word of a message is called so (Repeat, Computer, User, Mailslot, Bits, Sid, Version are)"
            }
            WordError::Twice => "this word is given twice",
            WordError::BadNumber => {
                "Repeat, Bits and Version take a number, as 6 or 0x10, Repeat one up to 65535"
            }
            WordError::BadEscape => "a backslash takes two hex digits after it",
            WordError::NotUtf8 => "Computer and User are texts in UTF-8",
            WordError::TooLong => "longer than any message",
        })
    }
}

impl From<EscapeError> for WordError {
    fn from(error: EscapeError) -> WordError {
        match error {
            EscapeError::BadEscape => WordError::BadEscape,
            EscapeError::TooLong => WordError::TooLong,
        }
    }
}

#[derive(Clone, Copy)]
enum Word {
    Repeat,
    Computer,
    User,
    Mailslot,
    Bits,
    Sid,
    Version,
}

// The words that are given, their octets as stretches of a source.
#[derive(Clone, Copy, Default)]
pub struct Words {
    pub repeat: Option<u16>,
    pub computer: Option<Stretch>,
    pub user: Option<Stretch>,
    pub mailslot: Option<Stretch>,
    pub bits: Option<u32>,
    pub sid: Option<Stretch>,
    pub version: Option<u32>,
}

impl Words {
    fn has(&self, word: Word) -> bool {
        match word {
            Word::Repeat => self.repeat.is_some(),
            Word::Computer => self.computer.is_some(),
            Word::User => self.user.is_some(),
            Word::Mailslot => self.mailslot.is_some(),
            Word::Bits => self.bits.is_some(),
            Word::Sid => self.sid.is_some(),
            Word::Version => self.version.is_some(),
        }
    }
}

// The word that a name spells.
fn word_of(name: &[u8]) -> Option<Word> {
    [
        (b"Repeat".as_slice(), Word::Repeat),
        (b"Computer", Word::Computer),
        (b"User", Word::User),
        (b"Mailslot", Word::Mailslot),
        (b"Bits", Word::Bits),
        (b"Sid", Word::Sid),
        (b"Version", Word::Version),
    ]
    .iter()
    .find(|(spelling, _)| name.eq_ignore_ascii_case(spelling))
    .map(|(_, word)| *word)
}

fn number_word(text: &[u8]) -> Result<u32, WordError> {
    number_of(text).ok_or(WordError::BadNumber)
}

fn repeat_word(text: &[u8]) -> Result<u16, WordError> {
    let number = number_word(text)?;
    u16::try_from(number).map_err(|_| WordError::BadNumber)
}

// Where a word's room starts in the source.
fn room_start(word: Word) -> usize
    ensures { result ≤ 3060 }
{
    match word {
        Word::Computer => 0,
        Word::User => TEXT_ROOM,
        Word::Mailslot => 2 * TEXT_ROOM,
        Word::Repeat | Word::Bits | Word::Sid | Word::Version => 3 * TEXT_ROOM,
    }
}

// Puts octets into a word's room.
fn octets_word(word: Word, source: &mut [u8], text: &[u8]) -> Result<Stretch, WordError> {
    let start = room_start(word);
    let Some(room) = source.get_mut(start..start + TEXT_ROOM) else {
        return Err(WordError::TooLong);
    };
    let len = unescape(text, room)?;
    Ok(Stretch { start, len })
}

// The same of a text in UTF-8, put as UTF-16LE.
fn text_word(word: Word, source: &mut [u8], text: &[u8]) -> Result<Stretch, WordError> {
    let start = room_start(word);
    let Some(room) = source.get_mut(start..start + TEXT_ROOM) else {
        return Err(WordError::TooLong);
    };
    let mut octets = [0; TEXT_MOST];
    let len = unescape(text, &mut octets)?;
    let text = part(&octets, 0, len);
    let size = utf16_size(text);
    if (size == 0) & !text.is_empty() {
        return Err(WordError::NotUtf8);
    }
    if room.len() < size {
        return Err(WordError::TooLong);
    }
    let len = put_utf16(room, text);
    Ok(Stretch { start, len })
}

// Reads one more word than those that are given, and puts its octets into its room of the source.
pub fn read_word(text: &[u8], source: &mut [u8], words: &mut Words) -> Result<(), WordError> {
    let Some((name, value)) = split_word(text) else {
        return Err(WordError::NoEquals);
    };
    let Some(word) = word_of(name) else {
        return Err(WordError::UnknownWord);
    };
    if words.has(word) {
        return Err(WordError::Twice);
    }
    match word {
        Word::Repeat => words.repeat = Some(repeat_word(value)?),
        Word::Computer => words.computer = Some(text_word(word, source, value)?),
        Word::User => words.user = Some(text_word(word, source, value)?),
        Word::Mailslot => words.mailslot = Some(octets_word(word, source, value)?),
        Word::Bits => words.bits = Some(number_word(value)?),
        Word::Sid => words.sid = Some(octets_word(word, source, value)?),
        Word::Version => words.version = Some(number_word(value)?),
    }
    Ok(())
}

#[cfg(test)]
mod tests {
    use super::*;

    #[test]
    fn words_are_read(rt: HostRuntime) {
        let mut source = [7; TEXTS_SIZE];
        let mut words = Words::default();
        assert_eq!(rt; read_word(b"user=a", &mut source, &mut words).is_ok(), true);
        assert_eq!(rt;
            read_word(b"Sid=\\01", &mut source, &mut words).is_ok(),
            true
        );
        assert_eq!(rt;
            read_word(b"Repeat=0x10", &mut source, &mut words).is_ok(),
            true
        );
        assert_eq!(rt; words.user.map(|user| user.start), Some(1020));
        assert_eq!(rt; part(&source, 1020, 2), [b'a', 0].as_slice());
        assert_eq!(rt; words.sid.map(|sid| sid.len), Some(1));
        assert_eq!(rt; part(&source, 3060, 1), [1].as_slice());
        assert_eq!(rt; words.repeat, Some(16));
        assert_eq!(rt;
            read_word(b"User=b", &mut source, &mut words).is_err(),
            true
        );
        assert_eq!(rt;
            read_word(b"Computer=\xff", &mut source, &mut words).is_err(),
            true
        );
    }
}
