// The answer to a filter or to a mailslot message, shown.
use crate::message_shown::say_message;
use answers::Refusal;
use filter_read::ping::read_ping;
use locator::Answered;
use locator::ping::answer_ping;
use mailslot_answer::answer::answer_mailslot;
use mailslot_read::read::read_message;
use octets::part::part;
use reader_reply::read::read_reply;
use report::answer::{say_answer, say_form};
use report::reading::say_reading;
use std::io;
use std::io::Write;
use table::Caller;

// No reply is longer than 1,108 octets.
const REPLY_SIZE: usize = 1108;

// An answer to what asked with version bits, and the buffer that was lent for a reply, which our own reader reads.
fn show<W: Write>(
    to: &mut W,
    answer: Result<Answered, Refusal>,
    reply: &[u8],
    version: u32,
) -> io::Result<()> {
    say_answer(to, &answer, "answered")?;
    let Ok(answered) = answer else {
        return Ok(());
    };
    say_form(to, answered.form)?;
    writeln!(to, "context   {}", answered.context.0)?;
    let reply = part(reply, 0, answered.length);
    say_reading(to, reply, &read_reply(reply, answered.form, version))
}

// One that was answered has the version bits that it asks with.
pub fn show_filter<'a, W: Write>(
    to: &mut W,
    image: &'a [u8],
    caller: Caller,
    filter: &'a [u8],
) -> io::Result<()> {
    let mut reply = [0u8; REPLY_SIZE];
    let answer = answer_ping(image, caller, filter, &mut reply);
    let version = match read_ping(filter) {
        Ok(ping) => ping.version,
        Err(_) => 0,
    };
    show(to, answer, &reply, version)
}

// A message that is none is not shown; its version, which no reply asks for, is 0.
fn show_asked<W: Write>(to: &mut W, octets: &[u8]) -> io::Result<u32> {
    match read_message(octets) {
        Ok(message) => {
            say_message(to, octets, message)?;
            Ok(message.version)
        }
        Err(_) => Ok(0),
    }
}

pub fn show_message<'a, W: Write>(
    to: &mut W,
    image: &'a [u8],
    caller: Caller,
    message: &'a [u8],
) -> io::Result<()> {
    let mut reply = [0u8; REPLY_SIZE];
    let version = show_asked(to, message)?;
    let answer = answer_mailslot(image, caller, message, &mut reply);
    show(to, answer, &reply, version)
}
