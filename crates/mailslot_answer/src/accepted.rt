// The answer to a mailslot message from an image that was judged before.
ghost use Rattle.table_whole.specs.Judgement.{Accepted};
ghost use Rattle.mailslot_answer.specs.Answer.{AnswerMailslotReturns, AnswerMailslotLeaves};

use crate::ping::{SOURCE_SIZE, put_ping};
use answers::Refusal;
use locator::Answered;
use locator::over::answer_over;
use mailslot_read::read::read_message;
use table::Caller;
use table_whole::image::AcceptedImage;

// What `answer_mailslot` promises, without judging the image again.
pub fn answer_mailslot_accepted<'a>(
    image: &'a [u8],
    caller: Caller,
    message: &'a [u8],
    reply: &mut [u8],
) -> Result<Answered, Refusal>
    requires { Accepted image.now }
    ensures answer_mailslot_returns { AnswerMailslotReturns image.now caller message.now reply.old result }
    ensures answer_mailslot_leaves { AnswerMailslotLeaves image.now caller message.now reply.old reply.new }
{
    let accepted = AcceptedImage::judged_before(image);
    let read = read_message(message)?;
    let mut source = [0; SOURCE_SIZE];
    let ping = put_ping(&mut source, message, read);
    answer_over(&accepted, caller, &source, ping, reply)
}
