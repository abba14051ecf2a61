// The answer to a ping over an accepted image, 11 to 19, however the ping came in: document 01, "Answer numbers".
ghost use Rattle.std.specs.Prelude.{◌≡◌, false, not, ◌+◌, ◌≤◌, length};
ghost use Rattle.octets.specs.Buffer.{over};
ghost use Rattle.octets.specs.Lists.{holds, cut};
ghost use Rattle.unicode_text.specs.UserName.{is_user_name};
ghost use Rattle.filter.specs.Request.{octets_of};
ghost use Rattle.filter_read.specs.Internal.RawPing.{ping_at};
ghost use Rattle.table.specs.Context.{context_of, context_format};
ghost use Rattle.table.specs.Table.{table_from};
ghost use Rattle.choose.specs.Choose.{names_application};
ghost use Rattle.locator.specs.Answer.{reply_to, answer_over, answer_as, octets_written};

use crate::Answered;
use crate::user::is_wrong_user;
use answers::Refusal;
use choose::answer::form_for;
use choose_context::context::context_used;
use choose_reply::chosen::reply_for;
use filter_read::ping::RawPing;
use lent::slices::Lent;
use octets::part::part;
use reply_write::fit::fit_reply;
use table::{Caller, context};
use table_whole::image::AcceptedImage;

// 18 and 19, and the reply in the context used.
fn reply_to<'a>(
    image: &AcceptedImage<'a>,
    caller: Caller,
    source: &'a [u8],
    ping: RawPing,
    context: usize,
    application: bool,
    reply: &mut [u8],
) -> Result<Answered, Refusal>
    requires context_in_bounds { context + context_format.width ≤ length image.now }
    requires application_value { application ≡ names_application (table_from image.now) (ping_at source.now ping) }
    requires user_value { holds (λ x. not (is_user_name x)) (octets_of source.now ping.user) ≡ false }
    ensures value { result ≡ answer_as (reply_to (table_from image.now) caller (ping_at source.now ping) (length reply.old) (context_of (cut image.now context context_format.width))) }
    ensures reply_after { reply.new ≡ over (octets_written (reply_to (table_from image.now) caller (ping_at source.now ping) (length reply.old) (context_of (cut image.now context context_format.width)))) reply.old }
{
    let form = form_for(image, ping);
    if is_wrong_user(form, source, ping.user) {
        return Err(Refusal::UserLabelEmpty);
    }
    let raw = reply_for(image, caller, source, ping, context, application, form);
    let octets = image.octets();
    let lent = Lent {
        table: octets,
        request: source,
    };
    let length = fit_reply(reply, lent, form, &raw)?;
    Ok(Answered {
        length,
        context: context::number(part(octets, context, context::FORMAT.width)),
        form,
    })
}

// The clauses of the ping are stretches of the source. The reply is written at the front of the part that is lent, and pointers count from there.
pub fn answer_over<'a>(
    image: &AcceptedImage<'a>,
    caller: Caller,
    source: &'a [u8],
    ping: RawPing,
    reply: &mut [u8],
) -> Result<Answered, Refusal>
    requires { holds (λ x. not (is_user_name x)) (octets_of source.now ping.user) ≡ false }
    ensures value { result ≡ answer_as (answer_over (table_from image.now) caller (ping_at source.now ping) (length reply.old)) }
    ensures reply_after { reply.new ≡ over (octets_written (answer_over (table_from image.now) caller (ping_at source.now ping) (length reply.old))) reply.old }
{
    let used = context_used(image, source, ping)?;
    reply_to(
        image,
        caller,
        source,
        ping,
        used.context,
        used.application,
        reply,
    )
}
