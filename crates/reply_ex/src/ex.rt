// The form EX.
ghost use Rattle.std.specs.Prelude.{◌≡◌, ◌+◌, ◌≤◌, length};
ghost use Rattle.octets.specs.Buffer.{over};
ghost use Rattle.lent.specs.Internal.OverAt.{over_at};
ghost use Rattle.lent.specs.Internal.Stretch.{octets_at};
ghost use Rattle.reply.specs.Reply.{ex_head, address_if, ex_octets};
ghost use Rattle.reply.specs.Internal.RawReply.{reply_in};
ghost use Rattle.reply.specs.Internal.Plan.{last_name, last_octets, LastFits, ExPlan};

use answers::wire::{
    DC_SOCK_ADDR_SIZE, EX_VERSION, EX_VERSION_WITH_NEXT_SITE, SBZ, SIN_FAMILY, SIN_ZERO,
};
use lent::put::{put_octets_at, put_u16_at, put_u32_at};
use lent::slices::Lent;
use reply::fields::{put_ending_at, put_name_at, put_names_at, put_stretch_at};
use reply::plan::Plan;
use reply::raw::{NEXT_SITE, RawReply};

// What stands before the names.
fn put_ex_head<'a>(out: &mut [u8], lent: Lent<'a>, raw: &RawReply) -> usize
    requires { length (ex_head (reply_in lent.table.now lent.request.now raw.now)) ≤ length out.old }
    ensures value { result ≡ length (ex_head (reply_in lent.entry.table.now lent.entry.request.now raw.now)) }
    ensures out_after { out.new ≡ over (ex_head (reply_in lent.entry.table.now lent.entry.request.now raw.now)) out.old }
{
    let at = put_u16_at(out, 0, raw.opcode);
    let at = put_u16_at(out, at, SBZ);
    let at = put_u32_at(out, at, raw.flags);
    put_stretch_at(out, at, lent, raw.guid)
}

// The server's address, where it is asked for.
fn put_address_at<'a>(out: &mut [u8], at: usize, lent: Lent<'a>, raw: &RawReply) -> usize
    requires { at + length (address_if raw.now.with_address (octets_at lent.table.now lent.request.now raw.now.ipv4)) ≤ length out.old }
    ensures value { result ≡ at + length (address_if raw.now.with_address (octets_at lent.entry.table.now lent.entry.request.now raw.now.ipv4)) }
    ensures out_after { out.new ≡ over_at at (address_if raw.now.with_address (octets_at lent.entry.table.now lent.entry.request.now raw.now.ipv4)) out.old }
{
    if !raw.with_address {
        return at;
    }
    let size = [DC_SOCK_ADDR_SIZE];
    let zeros = SIN_ZERO;
    let at = put_octets_at(out, at, &size);
    let at = put_u32_at(out, at, SIN_FAMILY);
    let at = put_stretch_at(out, at, lent, raw.ipv4);
    put_octets_at(out, at, &zeros)
}

// Name 8, where there is one, and the version by it.
fn put_last_at<'a>(out: &mut [u8], at: usize, lent: Lent<'a>, raw: &RawReply, plan: &Plan)
    requires last_fits { LastFits lent.table.now lent.request.now raw.now.with_next_site (last_name plan.now.names) }
    requires names_in_bounds { at + length (last_octets lent.table.now lent.request.now raw.now.with_next_site (last_name plan.now.names)) ≤ length out.old }
    ensures { out.new ≡ over_at at (last_octets lent.entry.table.now lent.entry.request.now raw.now.with_next_site (last_name plan.now.names)) out.old }
{
    if raw.with_next_site {
        let at = put_name_at(out, at, lent, plan.last_name());
        put_ending_at(out, at, EX_VERSION_WITH_NEXT_SITE);
    } else {
        put_ending_at(out, at, EX_VERSION);
    }
}

// A reply of the form EX.
pub fn put_ex<'a>(out: &mut [u8], lent: Lent<'a>, raw: &RawReply, plan: &Plan)
    requires ex_plan { ExPlan lent.table.now lent.request.now (reply_in lent.table.now lent.request.now raw.now) plan.now.names }
    requires raw_in_bounds { length (ex_octets (reply_in lent.table.now lent.request.now raw.now)) ≤ length out.old }
    ensures { out.new ≡ over (ex_octets (reply_in lent.entry.table.now lent.entry.request.now raw.now)) out.old }
{
    let at = put_ex_head(out, lent, raw);
    let at = put_names_at(out, at, lent, &plan.names[..NEXT_SITE]);
    let at = put_address_at(out, at, lent, raw);
    put_last_at(out, at, lent, raw, plan);
}
