// The answer to a mailslot message: document 02, #105.
ghost use Rattle.mailslot_answer.specs.Answer.{AnswerMailslotReturns, AnswerMailslotLeaves};

use crate::accepted::answer_mailslot_accepted;
use answers::Refusal;
use locator::Answered;
use table::Caller;
use table_whole::judge::judge;

// Answers a message of any octets from a table image of any octets: the table is judged first, then the message, 41, then the ping over the table.
// A refusal leaves the reply buffer as it was; an answer changes its first octets, as many as the reply has.
pub fn answer_mailslot<'a>(
    image: &'a [u8],
    caller: Caller,
    message: &'a [u8],
    reply: &mut [u8],
) -> Result<Answered, Refusal>
    ensures answer_mailslot_returns { AnswerMailslotReturns image.now caller message.now reply.old result }
    ensures answer_mailslot_leaves { AnswerMailslotLeaves image.now caller message.now reply.old reply.new }
{
    judge(image)?;
    answer_mailslot_accepted(image, caller, message, reply)
}
