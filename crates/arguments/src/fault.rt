// Why a program answers nothing: a slip of its arguments, which it tells on standard error, or an error of the system.
use crate::clause::ClauseError;
use crate::message_word::WordError;
use octets::part::part;
use std::io;
use std::io::{Cursor, Write};

// How much of an argument is shown.
const SHOWN_MOST: usize = 80;

// More than an error's text has.
const ERROR_MOST: usize = 300;

// What is shown of an argument: its front, and how long it is. It outlives the room that the argument stands in.
#[derive(Clone, Copy)]
pub struct Shown {
    front: [u8; SHOWN_MOST],
    len: usize,
}

// An octet that moves no terminal.
fn printable(x: u8) -> u8 {
    if x.is_ascii_control() { b'?' } else { x }
}

impl Shown {
    pub fn of(argument: &[u8]) -> Shown {
        let mut front = [0; SHOWN_MOST];
        for i in 0..argument.len().min(SHOWN_MOST) {
            front[i] = printable(argument[i]);
        }
        Shown {
            front,
            len: argument.len(),
        }
    }

    fn octets(&self) -> &[u8] {
        part(&self.front, 0, self.len)
    }
}

#[derive(Drop)]
pub enum Fault {
    // An argument of this name is not there, or too long.
    Missing(&'static str),
    TooLong(&'static str),
    // A line that tells it, with its LF.
    Slip(&'static str),
    // What is wrong with an argument.
    Of(&'static str, Shown),
    Clause(ClauseError, Shown),
    Word(WordError, Shown),
    // A file of this name that can't be read.
    File(io::Error, Shown),
    System(io::Error),
}

impl From<io::Error> for Fault {
    fn from(error: io::Error) -> Fault {
        Fault::System(error)
    }
}

// The front of an argument is written as it was given, so that Shown is no Display.
fn say_argument<W: Write>(err: &mut W, argument: &Shown) -> io::Result<()> {
    write!(err, ": ")?;
    err.write_all(argument.octets())?;
    if SHOWN_MOST < argument.len {
        write!(err, "...")?;
    }
    writeln!(err)
}

// An error's text as the system has it, without its number, which std puts behind.
fn without_number(text: &str) -> &str {
    match text.split_once(" (os error") {
        Some((why, _)) => why,
        None => text,
    }
}

fn say_file<W: Write>(err: &mut W, path: &Shown, error: &io::Error) -> io::Result<()> {
    let mut room = [0; ERROR_MOST];
    let mut text = Cursor::new(room.as_mut_slice());
    write!(text, "{error}")?;
    let len = text.position() as usize;
    let text = str::from_utf8(part(&room, 0, len)).unwrap_or("");
    err.write_all(path.octets())?;
    writeln!(err, ": {}", without_number(text))
}

// One line: what is wrong, and the argument that is.
fn say_slip<W: Write>(err: &mut W, fault: &Fault) -> io::Result<()> {
    match fault {
        Fault::Missing(name) => writeln!(err, "{name} is missing"),
        Fault::TooLong(name) => writeln!(err, "{name} is too long"),
        Fault::Slip(line) => write!(err, "{line}"),
        Fault::Of(what, argument) => {
            write!(err, "{what}")?;
            say_argument(err, argument)
        }
        Fault::Clause(what, argument) => {
            write!(err, "{what}")?;
            say_argument(err, argument)
        }
        Fault::Word(what, argument) => {
            write!(err, "{what}")?;
            say_argument(err, argument)
        }
        Fault::File(error, path) => say_file(err, path, error),
        Fault::System(_) => Ok(()),
    }
}

impl Fault {
    // A slip is told, with an example of good arguments; an error of the system ends the program.
    pub fn tell<W: Write>(self, err: &mut W, example: &str) -> io::Result<()> {
        if let Fault::System(error) = self {
            return Err(error);
        }
        say_slip(err, &self)?;
        write!(err, "{example}")
    }
}
