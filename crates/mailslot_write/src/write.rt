// Writes a mailslot message.
ghost use Rattle.mailslot_write.specs.Write.{WriteMessageReturns, WriteMessageLeaves};

use crate::put::put_message;
use crate::size::message_size;
use answers::Refusal;
use mailslot::judge::is_good_message;
use mailslot::message::Message;

// Writes a message whose texts lie in the source: 41 where a limit is not kept, then 19, and the buffer unchanged.
// Its length is known before the first octet is written.
pub fn write_message(source: &[u8], message: Message, out: &mut [u8]) -> Result<usize, Refusal>
    ensures write_message_returns { WriteMessageReturns source.now message out.old result }
    ensures write_message_leaves { WriteMessageLeaves source.now message out.old out.new }
{
    if !is_good_message(source, message) {
        return Err(Refusal::MailslotShape);
    }
    let size = message_size(source, message);
    if out.len() < size {
        return Err(Refusal::NoRoom);
    }
    put_message(out, source, message);
    Ok(size)
}
