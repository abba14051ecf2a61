// A name of a received reply, read: where it starts, its text's length, its pointers, and where the next field starts.
ghost use Rattle.reader_names.specs.Internal.NameRead.{NameOf};

use crate::NameAt;
use crate::step::{NameStep, text_len};
use crate::walk::NameWalk;
use answers::Refusal;
use reader::field::Read;

// At most 16 pointers are followed, and 255 octets written out: a bound that no reply moves. A `loop`: each step says where the next is.
pub fn read_name(reply: &[u8], start: usize) -> Result<Read<NameAt>, Refusal>
    ensures { NameOf reply.now start result }
{
    let mut walk = NameWalk::starting(start);
    loop {
        match walk.step(reply)? {
            NameStep::Ends => {
                return Ok(Read {
                    value: NameAt {
                        start,
                        len: text_len(walk.spent),
                        pointers: walk.pointers,
                    },
                    next: walk.next,
                });
            }
            NameStep::Label(_) | NameStep::Pointer(_) => {}
        }
    }
}
