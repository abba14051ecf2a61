// The answer to a ping: document 01, "What the locator takes and gives".
ghost use Rattle.locator.specs.Answer.{AnswerPingReturns, AnswerPingLeaves};

use crate::Answered;
use crate::accepted::answer_accepted;
use answers::Refusal;
use table::Caller;
use table_whole::judge::judge;

// Answers a filter of any octets from a table image of any octets: the table is judged first, then the filter, then the ping over the table.
// A refusal leaves the reply buffer as it was; an answer changes its first octets, as many as the reply has.
pub fn answer_ping<'a>(
    image: &'a [u8],
    caller: Caller,
    filter: &'a [u8],
    reply: &mut [u8],
) -> Result<Answered, Refusal>
    ensures answer_ping_returns { AnswerPingReturns image.now caller filter.now reply.old result }
    ensures answer_ping_leaves { AnswerPingLeaves image.now caller filter.now reply.old reply.new }
{
    judge(image)?;
    answer_accepted(image, caller, filter, reply)
}
