// A mailslot message, read: document 02, #105.
ghost use Rattle.mailslot.specs.Read.{ReadMessagePromise};

use crate::part::{TEXTS_AT, name_end, read_numbers, text_end};
use answers::Refusal;
use answers::wire::LOGON_SAM_LOGON_REQUEST;
use mailslot::judge::COMPUTER_NAME_MOST;
use mailslot::message::{MESSAGE_MOST, Message};
use octets::number::u16_at;
use transcode::octet::first_octet;

// A text that doesn't end hands the message's end on to the next, and so to the one test of them all.
pub fn read_message(message: &[u8]) -> Result<Message, Refusal>
    ensures { ReadMessagePromise message.now result }
{
    if MESSAGE_MOST < message.len() {
        return Err(Refusal::MailslotShape);
    }
    if message.len() < TEXTS_AT {
        return Err(Refusal::MailslotShape);
    }
    if u16_at(message, 0) != LOGON_SAM_LOGON_REQUEST {
        return Err(Refusal::MailslotShape);
    }
    // Compiled to nothing: it tells the proof that the message is of octets.
    let _octet = first_octet(message);
    let computer_end = text_end(message, TEXTS_AT);
    let user_end = text_end(message, computer_end + 2);
    let mailslot_end = name_end(message, user_end + 2);
    if message.len() <= mailslot_end {
        return Err(Refusal::MailslotShape);
    }
    if TEXTS_AT + COMPUTER_NAME_MOST < computer_end {
        return Err(Refusal::MailslotShape);
    }
    read_numbers(message, computer_end, user_end, mailslot_end)
}
