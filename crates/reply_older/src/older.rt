// The two older forms, which open with texts in UTF-16LE: NT40 and RESPONSE.
ghost use Rattle.std.specs.Prelude.{◌≡◌, ◌≤◌, length};
ghost use Rattle.octets.specs.Buffer.{over};
ghost use Rattle.reply.specs.Reply.{opening, nt40_octets, response_head, response_octets};
ghost use Rattle.reply.specs.Internal.RawReply.{reply_in};
ghost use Rattle.reply.specs.Internal.Plan.{ResponsePlan};

use answers::wire::{NT40_VERSION, NULL_GUID, RESPONSE_VERSION};
use lent::put::{put_octets_at, put_u16_at, put_u32_at};
use lent::slices::Lent;
use reply::fields::{put_ending_at, put_names_at, put_stretch_at};
use reply::plan::Plan;
use reply::raw::{CONTEXT_NETBIOS, RawReply, SERVER_NETBIOS, USER};
use reply::text::put_text_at;

// The opcode and the three texts.
fn put_opening<'a>(out: &mut [u8], lent: Lent<'a>, raw: &RawReply) -> usize
    requires { length (opening (reply_in lent.table.now lent.request.now raw.now)) ≤ length out.old }
    ensures value { result ≡ length (opening (reply_in lent.entry.table.now lent.entry.request.now raw.now)) }
    ensures out_after { out.new ≡ over (opening (reply_in lent.entry.table.now lent.entry.request.now raw.now)) out.old }
{
    let at = put_u16_at(out, 0, raw.opcode);
    let at = put_text_at(out, at, lent, raw.text(SERVER_NETBIOS));
    let at = put_text_at(out, at, lent, raw.text(USER));
    put_text_at(out, at, lent, raw.text(CONTEXT_NETBIOS))
}

// A reply of the form NT40.
pub fn put_nt40<'a>(out: &mut [u8], lent: Lent<'a>, raw: &RawReply)
    requires { length (nt40_octets (reply_in lent.table.now lent.request.now raw.now)) ≤ length out.old }
    ensures { out.new ≡ over (nt40_octets (reply_in lent.entry.table.now lent.entry.request.now raw.now)) out.old }
{
    let at = put_opening(out, lent, raw);
    put_ending_at(out, at, NT40_VERSION);
}

// What stands before the names of a RESPONSE.
fn put_response_head<'a>(out: &mut [u8], lent: Lent<'a>, raw: &RawReply) -> usize
    requires { length (response_head (reply_in lent.table.now lent.request.now raw.now)) ≤ length out.old }
    ensures value { result ≡ length (response_head (reply_in lent.entry.table.now lent.entry.request.now raw.now)) }
    ensures out_after { out.new ≡ over (response_head (reply_in lent.entry.table.now lent.entry.request.now raw.now)) out.old }
{
    let null_guid = NULL_GUID;
    let at = put_opening(out, lent, raw);
    let at = put_stretch_at(out, at, lent, raw.guid);
    put_octets_at(out, at, &null_guid)
}

// A reply of the form RESPONSE, whose names are the first three of the slots.
pub fn put_response<'a>(out: &mut [u8], lent: Lent<'a>, raw: &RawReply, plan: &Plan)
    requires response_plan { ResponsePlan lent.table.now lent.request.now (reply_in lent.table.now lent.request.now raw.now) plan.now.names }
    requires raw_in_bounds { length (response_octets (reply_in lent.table.now lent.request.now raw.now)) ≤ length out.old }
    ensures { out.new ≡ over (response_octets (reply_in lent.entry.table.now lent.entry.request.now raw.now)) out.old }
{
    let at = put_response_head(out, lent, raw);
    let at = put_names_at(out, at, lent, &plan.names[..CONTEXT_NETBIOS]);
    let at = put_stretch_at(out, at, lent, raw.ipv4);
    let at = put_u32_at(out, at, raw.flags);
    put_ending_at(out, at, RESPONSE_VERSION);
}
