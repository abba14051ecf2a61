// What the texts, the SID and the numbers of a message must be, for reader and writer.
ghost use Rattle.std.specs.Prelude.{◌≡◌, ◌≤◌, length};
ghost use Rattle.mailslot.specs.Message.{is_computer_name, is_message_user, is_mailslot_name, is_message_sid, good_message};
ghost use Rattle.mailslot.specs.Internal.Runs.{NameRun};
ghost use Rattle.mailslot.specs.Internal.Shape.{is_sid_size};

use crate::message::Message;
use crate::text::text_run;
use octets::number::wide;
use unicode_text::utf8::octet_at;

pub const MAILSLOT_NAME_MOST: usize = 64;

// The octets of a SID without its parts, and of one with the most of them.
const SID_LEAST: u32 = 8;

pub const SID_MOST: u32 = 68;

// A computer's name has 15 units at most.
pub const COMPUTER_NAME_MOST: usize = 30;

pub fn is_message_user(s: &[u8]) -> bool
    ensures { result ≡ is_message_user s.now }
{
    text_run(s, 0) == s.len()
}

// A text of so few units is no longer than a user's name may be.
pub fn is_computer_name(s: &[u8]) -> bool
    ensures { result ≡ is_computer_name s.now }
{
    if COMPUTER_NAME_MOST < s.len() {
        return false;
    }
    text_run(s, 0) == s.len()
}

// Where the octets from an offset on end that a mailslot's name may have.
pub fn name_run(s: &[u8], start: usize) -> usize
    requires { start ≤ length s.now }
    ensures { NameRun s.now start result }
{
    let end = s.len();
    for at in start..end {
        let octet = s[at];
        if (octet == 0) | (0x7F < octet) {
            return at;
        }
    }
    end
}

pub fn is_mailslot_name(s: &[u8]) -> bool
    ensures { result ≡ is_mailslot_name s.now }
{
    if MAILSLOT_NAME_MOST < s.len() {
        return false;
    }
    name_run(s, 0) == s.len()
}

// Whether a SID of this count has so many octets; no octets are no SID.
pub fn is_sid_size(size: u32, count: u8) -> bool
    ensures { result ≡ is_sid_size size count }
{
    (size == 0) | ((SID_LEAST <= size) & (size <= SID_MOST) & (size == SID_LEAST + 4 * wide(count)))
}

pub fn is_message_sid(s: &[u8]) -> bool
    ensures { result ≡ is_message_sid s.now }
{
    if (SID_MOST as usize) < s.len() {
        return false;
    }
    is_sid_size(s.len() as u32, octet_at(s, 1))
}

// Every limit of a message whose texts stand in a source; each number has its field's width already. No test waits for another: most
// messages pass them all.
pub fn is_good_message(source: &[u8], message: Message) -> bool
    ensures { result ≡ good_message source.now message }
{
    is_computer_name(message.computer.of(source))
        & is_message_user(message.user.of(source))
        & is_mailslot_name(message.mailslot.of(source))
        & is_message_sid(message.sid.of(source))
}
