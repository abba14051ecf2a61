// `mailslot` lines: a mailslot message is read.
use answers::number_in;
use line_words::answer::{say_numbers, say_text, say_unknown};
use line_words::word::only_octets;
use mailslot::message::Message;
use mailslot_read::read::read_message;
use std::alloc::Global;
use std::io;
use std::io::Write;

fn say_message<W: Write>(to: &mut W, octets: &[u8], message: Message) -> io::Result<()> {
    write!(to, " {}", message.repeat)?;
    say_text(to, message.computer.of(octets))?;
    say_text(to, message.user.of(octets))?;
    say_text(to, message.mailslot.of(octets))?;
    write!(to, " {:08x}", message.bits)?;
    say_text(to, message.sid.of(octets))?;
    write!(to, " {:08x}", message.version)
}

// A refusal has no fields.
pub fn answer_mailslot<W: Write>(to: &mut W, alloc: Global, fields: &[&str]) -> io::Result<()> {
    let Some(octets) = only_octets(alloc, fields)? else {
        return say_unknown(to);
    };
    let read = read_message(&octets);
    say_numbers(to, "mailslot", &[number_in(&read) as u64])?;
    match read {
        Ok(message) => say_message(to, &octets, message),
        Err(_) => Ok(()),
    }
}
