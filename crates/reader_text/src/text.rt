// The text of a name of a received reply, from its first offset: its labels joined by dots.
ghost use Rattle.reader_text.specs.Text.{NameTextPromise};

use crate::label::put_label;
use crate::{NameText, TEXT_MOST};
use octets::part::part;
use reader_names::step::{NameStep, text_len};
use reader_names::walk::NameWalk;

// Any offset may be asked for; where the reader accepts no name, its refusal is given, and no octets.
// A `loop`: each step says where the next is.
pub fn name_text(reply: &[u8], start: usize) -> NameText
    ensures { NameTextPromise reply.now start result }
{
    let mut octets = [0; TEXT_MOST];
    let mut walk = NameWalk::starting(start);
    loop {
        let here = walk;
        match walk.step(reply) {
            Ok(NameStep::Ends) => {
                return NameText {
                    len: Ok(text_len(walk.spent)),
                    octets,
                };
            }
            Ok(NameStep::Label(len)) => {
                put_label(&mut octets, here.spent, part(reply, here.at + 1, len));
            }
            Ok(NameStep::Pointer(_)) => {}
            Err(refusal) => {
                return NameText {
                    len: Err(refusal),
                    octets: [0; TEXT_MOST],
                };
            }
        }
    }
}
