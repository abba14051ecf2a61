// The exported calls that ask something of their caller: that the image passed 1 to 4. A library of its own, which only a table that was made by judging links:
// include/locator_table.h for C, `Table` of bindings/rust.
#![tactic(auto)]

ghost use Rattle.c_promises.specs.Calls.{ExportedAnswerPing, ExportedAnswerMailslot};
ghost use Rattle.table_whole.specs.Judgement.{Accepted};

use answers::number_in;
use c_answer::answer::{ANSWER_MEMBERS, answer_members};
use locator::accepted::answer_accepted;
use mailslot_answer::accepted::answer_mailslot_accepted;
use table::Caller;

#[unsafe(no_mangle)]
pub extern "C" fn vinegarjar_answer_ping_on_accepted_image<'a>(
    image: &'a [u8],
    client: &[u8; 4],
    filter: &'a [u8],
    reply: &mut [u8],
    answer: &mut [usize; ANSWER_MEMBERS],
) -> u8
    requires { Accepted image.now }
    ensures { ExportedAnswerPing image.now client.now filter.now reply.old reply.new answer.new result }
{
    let caller = Caller { address: *client };
    let given = answer_accepted(image, caller, filter, reply);
    *answer = answer_members(given);
    number_in(&given)
}

#[unsafe(no_mangle)]
pub extern "C" fn vinegarjar_answer_mailslot_on_accepted_image<'a>(
    image: &'a [u8],
    client: &[u8; 4],
    message: &'a [u8],
    reply: &mut [u8],
    answer: &mut [usize; ANSWER_MEMBERS],
) -> u8
    requires { Accepted image.now }
    ensures { ExportedAnswerMailslot image.now client.now message.now reply.old reply.new answer.new result }
{
    let caller = Caller { address: *client };
    let given = answer_mailslot_accepted(image, caller, message, reply);
    *answer = answer_members(given);
    number_in(&given)
}
