// The answer to a ping from an image that was judged before: an appliance judges its table once and answers from it all day.
ghost use Rattle.table_whole.specs.Judgement.{Accepted};
ghost use Rattle.locator.specs.Answer.{AnswerPingReturns, AnswerPingLeaves};

use crate::Answered;
use crate::over::answer_over;
use answers::Refusal;
use filter_read::ping::read_ping;
use table::Caller;
use table_whole::image::AcceptedImage;

// What `answer_ping` promises, without judging the image again.
pub fn answer_accepted<'a>(
    image: &'a [u8],
    caller: Caller,
    filter: &'a [u8],
    reply: &mut [u8],
) -> Result<Answered, Refusal>
    requires { Accepted image.now }
    ensures answer_ping_returns { AnswerPingReturns image.now caller filter.now reply.old result }
    ensures answer_ping_leaves { AnswerPingLeaves image.now caller filter.now reply.old reply.new }
{
    let accepted = AcceptedImage::judged_before(image);
    let ping = read_ping(filter)?;
    answer_over(&accepted, caller, filter, ping, reply)
}
