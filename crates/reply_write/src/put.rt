// Writes a reply that is planned, by its form.
ghost use Rattle.std.specs.Prelude.{◌≡◌, ◌≤◌, length};
ghost use Rattle.octets.specs.Buffer.{over};
ghost use Rattle.reply.specs.Reply.{octets_in};
ghost use Rattle.reply.specs.Internal.RawReply.{reply_in};
ghost use Rattle.reply.specs.Internal.Plan.{PlanOf};

use answers::Form;
use lent::slices::Lent;
use reply::plan::Plan;
use reply::raw::RawReply;
use reply_ex::ex::put_ex;
use reply_older::older::{put_nt40, put_response};

pub fn put_reply<'a>(out: &mut [u8], lent: Lent<'a>, form: Form, raw: &RawReply, plan: &Plan)
    requires plan_of { PlanOf lent.table.now lent.request.now form raw.now plan.now }
    requires length_in_bounds { plan.now.length ≤ length out.old }
    ensures { out.new ≡ over (octets_in form (reply_in lent.entry.table.now lent.entry.request.now raw.now)) out.old }
{
    match form {
        Form::Nt40 => put_nt40(out, lent, raw),
        Form::Response => put_response(out, lent, raw, plan),
        Form::Ex => put_ex(out, lent, raw, plan),
    }
}
