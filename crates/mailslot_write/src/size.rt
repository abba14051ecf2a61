// How many octets a message has, known before the first is written.
ghost use Rattle.std.specs.Prelude.{◌≡◌, ◌≤◌, length};
ghost use Rattle.mailslot.specs.Longest.{message_most};
ghost use Rattle.mailslot.specs.Message.{message_head, message_octets};

use mailslot::message::Message;
use mailslot::padding::sid_padding;

// What stands in the head besides its texts: the opcode and the repeat count, the zeros that end the texts, the account bits and the SID's size.
const HEAD_NUMBERS: usize = 2 + 2 + 2 + 2 + 1 + 4 + 4;

// The version and the two tokens.
const ENDING: usize = 4 + 2 + 2;

// How many octets stand before the SID and its padding.
fn head_size(source: &[u8], message: Message) -> usize
    requires { length (message_octets source.now message) ≤ message_most }
    ensures { result ≡ length (message_head source.now message) }
{
    HEAD_NUMBERS
        + message.computer.of(source).len()
        + message.user.of(source).len()
        + message.mailslot.of(source).len()
}

// How many octets a message has.
pub fn message_size(source: &[u8], message: Message) -> usize
    requires { length (message_octets source.now message) ≤ message_most }
    ensures { result ≡ length (message_octets source.now message) }
{
    let size = message.sid.of(source).len();
    let head = head_size(source, message);
    head + sid_padding(size as u32, head) + size + ENDING
}
