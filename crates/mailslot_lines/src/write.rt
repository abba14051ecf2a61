// `mailwrite` lines: a mailslot message is written from its fields.
use line_words::answer::{say_unknown, say_written};
use line_words::word::{bits_of, buffer_of, number_of, text_of};
use mailslot::message::Message;
use mailslot_write::write::write_message;
use std::alloc::{AllocError, Global};
use std::io;
use std::io::Write;

fn repeat_of(word: &str) -> Option<u16> {
    u16::try_from(number_of(word)?).ok()
}

// The message of such fields, its texts put into the source.
fn message_of(source: &mut Vec<u8>, fields: &[&str]) -> Result<Option<Message>, AllocError> {
    let [repeat, computer, user, mailslot, bits, sid, version] = fields else {
        return Ok(None);
    };
    let (Some(repeat), Some(bits), Some(version)) = (
        repeat_of(repeat),
        bits_of(bits),
        bits_of(version),
    ) else {
        return Ok(None);
    };
    let Some(computer) = text_of(source, computer)? else {
        return Ok(None);
    };
    let Some(user) = text_of(source, user)? else {
        return Ok(None);
    };
    let Some(mailslot) = text_of(source, mailslot)? else {
        return Ok(None);
    };
    let Some(sid) = text_of(source, sid)? else {
        return Ok(None);
    };
    Ok(Some(Message {
        repeat,
        computer,
        user,
        mailslot,
        bits,
        sid,
        version,
    }))
}

pub fn answer_mailwrite<W: Write>(to: &mut W, alloc: Global, fields: &[&str]) -> io::Result<()> {
    let [room, fields @ ..] = fields else {
        return say_unknown(to);
    };
    let mut source = Vec::new(alloc);
    let (Some(mut out), Some(message)) = (buffer_of(alloc, room)?, message_of(&mut source, fields)?)
    else {
        return say_unknown(to);
    };
    let written = write_message(&source, message, &mut out);
    say_written(to, "mailwrite", written, &out)
}
