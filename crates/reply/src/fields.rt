// Fields that more than one form has, written at an offset.
ghost use Rattle.std.specs.Prelude.{◌≡◌, ◌+◌, ◌≤◌, length};
ghost use Rattle.lent.specs.Internal.OverAt.{over_at};
ghost use Rattle.lent.specs.Internal.Stretch.{octets_at};
ghost use Rattle.names.specs.Internal.Plan.{name_octets, names_octets, Fit, AllFit};
ghost use Rattle.reply.specs.Reply.{ending};

use answers::wire::{LM_NT_TOKEN, LM20_TOKEN};
use lent::put::{put_octets_at, put_u16_at, put_u32_at};
use lent::slices::Lent;
use lent::stretch::Stretch;
use names::plan::PlannedName;
use names_write::put::{put_name, put_names};

// The octets of a stretch, as the context's GUID or the server's IPv4 address.
pub fn put_stretch_at<'a>(out: &mut [u8], at: usize, lent: Lent<'a>, stretch: Stretch) -> usize
    requires { at + length (octets_at lent.table.now lent.request.now stretch) ≤ length out.old }
    ensures value { result ≡ at + length (octets_at lent.entry.table.now lent.entry.request.now stretch) }
    ensures out_after { out.new ≡ over_at at (octets_at lent.entry.table.now lent.entry.request.now stretch) out.old }
{
    put_octets_at(out, at, lent.text(stretch))
}

// The version and the two tokens that end every reply.
pub fn put_ending_at(out: &mut [u8], at: usize, version: u32)
    requires { at + 8 ≤ length out.old }
    ensures { out.new ≡ over_at at (ending version) out.old }
{
    let at = put_u32_at(out, at, version);
    let at = put_u16_at(out, at, LM_NT_TOKEN);
    put_u16_at(out, at, LM20_TOKEN);
}

// Names as planned.
pub fn put_names_at<'a>(out: &mut [u8], at: usize, lent: Lent<'a>, names: &[PlannedName]) -> usize
    requires all_fit { AllFit lent.table.now lent.request.now names.now }
    requires names_in_bounds { at + length (names_octets lent.table.now lent.request.now names.now) ≤ length out.old }
    ensures value { result ≡ at + length (names_octets lent.entry.table.now lent.entry.request.now names.now) }
    ensures out_after { out.new ≡ over_at at (names_octets lent.entry.table.now lent.entry.request.now names.now) out.old }
{
    at + put_names(&mut out[at..], lent, names)
}

// One name as planned.
pub fn put_name_at<'a>(out: &mut [u8], at: usize, lent: Lent<'a>, name: &PlannedName) -> usize
    requires fit { Fit lent.table.now lent.request.now name.now }
    requires name_in_bounds { at + length (name_octets lent.table.now lent.request.now name.now) ≤ length out.old }
    ensures value { result ≡ at + length (name_octets lent.entry.table.now lent.entry.request.now name.now) }
    ensures out_after { out.new ≡ over_at at (name_octets lent.entry.table.now lent.entry.request.now name.now) out.old }
{
    at + put_name(&mut out[at..], lent, name)
}
