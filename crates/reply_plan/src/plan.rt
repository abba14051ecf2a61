// Plans a reply in each of the three forms.
ghost use Rattle.std.specs.Prelude.{◌≡◌, ◌+◌, ◌≤◌, length, take};
ghost use Rattle.answers.specs.declared.Form.TheVariants.{Nt40, Response, Ex};
ghost use Rattle.names.specs.Internal.Plan.{AllFit};
ghost use Rattle.reply.specs.Internal.Plan.{PlanOf};
ghost use Rattle.reply_plan.specs.Internal.LastPlan.{LastPlan};

use crate::size::{address_size, opening_size, stretch_size};
use answers::Form;
use answers::wire::ENDING_SIZE;
use lent::slices::Lent;
use lent::stretch::Stretch;
use names::plan::{NAMES_MOST, PlannedName, plan_name, plan_names};
use octets::size::GUID_SIZE;
use reply::plan::Plan;
use reply::raw::{CONTEXT_NETBIOS, NEXT_SITE, RawReply};

// The opcode, the second number and the flags of an EX.
const EX_NUMBERS_SIZE: usize = 8;

const FLAGS_SIZE: usize = 4;

// An NT40 has no names.
fn plan_nt40<'a>(lent: Lent<'a>, raw: &RawReply) -> Plan
    ensures { PlanOf lent.entry.table.now lent.entry.request.now Nt40 raw.now result }
{
    Plan {
        names: [PlannedName::BLANK; NAMES_MOST],
        length: opening_size(lent, raw) + ENDING_SIZE,
    }
}

// The names of a RESPONSE are the first three of the slots.
fn plan_response<'a>(lent: Lent<'a>, raw: &RawReply) -> Plan
    ensures { PlanOf lent.entry.table.now lent.entry.request.now Response raw.now result }
{
    let head = opening_size(lent, raw) + stretch_size(lent, raw.guid) + GUID_SIZE;
    let planned = plan_names(lent, raw.first(CONTEXT_NETBIOS), head);
    let names = planned.names;
    Plan {
        names,
        length: planned.end + stretch_size(lent, raw.ipv4) + FLAGS_SIZE + ENDING_SIZE,
    }
}

// Name 8, where there is one, after the eight others and the address, and the version by it.
fn plan_last<'a>(
    lent: Lent<'a>,
    names: [PlannedName; NAMES_MOST],
    with_next_site: bool,
    next_site: Stretch,
    front: usize,
) -> Plan
    requires { AllFit lent.table.now lent.request.now (take 8 names) × (front ≤ 8192) }
    ensures { LastPlan lent.entry.table.now lent.entry.request.now names with_next_site next_site front result }
{
    if !with_next_site {
        return Plan {
            names,
            length: front + ENDING_SIZE,
        };
    }
    let name = plan_name(lent, &names[..NEXT_SITE], next_site, front);
    let mut all = names;
    all[NEXT_SITE] = name;
    Plan {
        names: all,
        length: front + name.size() + ENDING_SIZE,
    }
}

fn plan_ex<'a>(lent: Lent<'a>, raw: &RawReply) -> Plan
    ensures { PlanOf lent.entry.table.now lent.entry.request.now Ex raw.now result }
{
    let head = EX_NUMBERS_SIZE + stretch_size(lent, raw.guid);
    let planned = plan_names(lent, raw.first(NEXT_SITE), head);
    let front = planned.end + address_size(lent, raw.with_address, raw.ipv4);
    plan_last(
        lent,
        planned.names,
        raw.with_next_site,
        raw.text(NEXT_SITE),
        front,
    )
}

pub fn plan_reply<'a>(lent: Lent<'a>, form: Form, raw: &RawReply) -> Plan
    ensures { PlanOf lent.entry.table.now lent.entry.request.now form raw.now result }
{
    match form {
        Form::Nt40 => plan_nt40(lent, raw),
        Form::Response => plan_response(lent, raw),
        Form::Ex => plan_ex(lent, raw),
    }
}
