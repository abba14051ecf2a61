// The parts of a message: each text is judged while its end is looked for, and what stands behind the texts is arithmetic on one offset.
ghost use Rattle.std.specs.Prelude.{◌≡◌, true, ◌&&◌, ◌+◌, ◌≤◌, eqb, length};
ghost use Rattle.answers.specs.Wire.{LmNtToken, Lm20Token};
ghost use Rattle.octets.specs.Number.{u16_at};
ghost use Rattle.transcode.specs.Transcode.{are_octets};
ghost use Rattle.mailslot.specs.Message.{is_message_user, message_in};
ghost use Rattle.mailslot.specs.Longest.{message_most};
ghost use Rattle.mailslot.specs.Internal.Shape.{EndsText, EndsName, OneEnd, Texts};

use answers::Refusal;
use answers::wire::{LM_NT_TOKEN, LM20_TOKEN};
use mailslot::judge::{MAILSLOT_NAME_MOST, is_sid_size, name_run};
use mailslot::message::Message;
use mailslot::padding::sid_padding;
use mailslot::text::text_run;
use octets::number::{u16_at, u32_at};
use octets::part::Stretch;
use unicode_text::utf8::octet_at;

// The texts stand behind the opcode and the repeat count.
pub const TEXTS_AT: usize = 4;

// The octets of the bits, of the SID's size, of the version and of the tokens.
const NUMBERS_SIZE: usize = 16;

// Where the text from an offset on ends, a good user; the message's end where it doesn't.
pub fn text_end(message: &[u8], start: usize) -> usize
    ensures { OneEnd (EndsText is_message_user message.now start) (length message.now) result }
{
    if message.len() < start {
        return message.len();
    }
    let end = text_run(message, start);
    if message.len() - end < 2 {
        return message.len();
    }
    if u16_at(message, end) != 0 {
        return message.len();
    }
    end
}

// Where the mailslot's name ends from an offset on; the message's end where it doesn't.
pub fn name_end(message: &[u8], start: usize) -> usize
    ensures { OneEnd (EndsName message.now start) (length message.now) result }
{
    if message.len() < start {
        return message.len();
    }
    let end = name_run(message, start);
    if message.len() <= end {
        return message.len();
    }
    if message[end] != 0 {
        return message.len();
    }
    if MAILSLOT_NAME_MOST < end - start {
        return message.len();
    }
    end
}

// Whether the two tokens stand at an offset.
fn has_tokens(message: &[u8], at: usize) -> bool
    requires { at + 4 ≤ length message.now }
    ensures { result ≡ (eqb (u16_at message.now at) LmNtToken && eqb (u16_at message.now (at + 2)) Lm20Token) }
{
    (u16_at(message, at) == LM_NT_TOKEN) & (u16_at(message, at + 2) == LM20_TOKEN)
}

// What stands behind the texts: nothing but its own octets, so that their number is known before the last of them is read.
pub fn read_numbers(
    message: &[u8],
    computer_end: usize,
    user_end: usize,
    mailslot_end: usize,
) -> Result<Message, Refusal>
    requires { (length message.now ≤ message_most) × (are_octets message.now ≡ true) × Texts message.now computer_end user_end mailslot_end }
    ensures { result ≡ message_in message.now }
{
    let bits_at = mailslot_end + 1;
    if message.len() - bits_at < NUMBERS_SIZE {
        return Err(Refusal::MailslotShape);
    }
    let size = u32_at(message, bits_at + 4);
    let sid_at = bits_at + 8 + sid_padding(size, bits_at + 8);
    if !is_sid_size(size, octet_at(message, sid_at + 1)) {
        return Err(Refusal::MailslotShape);
    }
    let version_at = sid_at + (size as usize);
    if version_at + 8 != message.len() {
        return Err(Refusal::MailslotShape);
    }
    if !has_tokens(message, version_at + 4) {
        return Err(Refusal::MailslotShape);
    }
    Ok(Message {
        repeat: u16_at(message, 2),
        computer: Stretch {
            start: TEXTS_AT,
            len: computer_end - TEXTS_AT,
        },
        user: Stretch {
            start: computer_end + 2,
            len: user_end - (computer_end + 2),
        },
        mailslot: Stretch {
            start: user_end + 2,
            len: mailslot_end - (user_end + 2),
        },
        bits: u32_at(message, bits_at),
        sid: Stretch {
            start: sid_at,
            len: size as usize,
        },
        version: u32_at(message, version_at),
    })
}
