// A reply where there is room for it: its length is known before its first octet is written.
ghost use Rattle.std.specs.Prelude.{◌≡◌, length};
ghost use Rattle.octets.specs.Buffer.{over};
ghost use Rattle.reply.specs.Reply.{octets_in};
ghost use Rattle.reply.specs.Internal.RawReply.{reply_in};
ghost use Rattle.reply_write.specs.Internal.Fit.{FittedTo, octets_fitted};

use crate::put::put_reply;
use answers::{Form, Refusal};
use lent::slices::Lent;
use reply::raw::RawReply;
use reply_plan::plan::plan_reply;

// The length of a reply, or 19. Not inlined: its plan would lie under the comparison of accounts, where the stack is deepest.
#[inline(never)]
pub fn fit_reply<'a>(
    out: &mut [u8],
    lent: Lent<'a>,
    form: Form,
    raw: &RawReply,
) -> Result<usize, Refusal>
    ensures fitted_to { FittedTo (octets_in form (reply_in lent.entry.table.now lent.entry.request.now raw.now)) (length out.old) result }
    ensures out_after { out.new ≡ over (octets_fitted (octets_in form (reply_in lent.entry.table.now lent.entry.request.now raw.now)) result) out.old }
{
    let plan = plan_reply(lent, form, raw);
    let length = plan.length;
    if out.len() < length {
        return Err(Refusal::NoRoom);
    }
    put_reply(out, lent, form, raw, &plan);
    Ok(length)
}
