// Writes planned names into the front of a buffer that has the room.
ghost use Rattle.std.specs.Prelude.{◌≡◌, ◌+◌, ◌≤◌, ◌<◌, length, get_or, take};
ghost use Rattle.octets.specs.Buffer.{over};
ghost use Rattle.names.specs.Internal.Plan.{literal_octets, ending_octets, PointsLow, name_octets, names_octets, Fit, AllFit};

use lent::slices::Lent;
use names::plan::{PlannedName, label_end, starts_label};

// The octet at an offset of a text's labels written out.
fn literal_octet(text: &[u8], at: usize) -> u8
    requires { (length text.now ≤ 255) × (at < length (literal_octets text.now)) }
    ensures { result ≡ get_or (literal_octets text.now) at 0 }
{
    if starts_label(text, at) {
        return (label_end(text, at) - at) as u8;
    }
    text[at - 1]
}

// The first `literal` octets of a text's labels written out.
fn put_labels(out: &mut [u8], text: &[u8], literal: usize)
    requires { (length text.now ≤ 255) × (literal ≤ length (literal_octets text.now)) × (literal ≤ length out.old) }
    ensures { out.new ≡ over (take literal (literal_octets text.now)) out.old }
{
    for i in 0..literal {
        out[i] = literal_octet(text, i);
    }
}

// A zero octet, or a pointer: its top two bits set, then its offset.
fn put_ending(out: &mut [u8], pointer: Option<usize>) -> usize
    requires { (length (ending_octets pointer) ≤ length out.old) × PointsLow pointer }
    ensures value { result ≡ length (ending_octets pointer) }
    ensures out_after { out.new ≡ over (ending_octets pointer) out.old }
{
    let Some(offset) = pointer else {
        out[0] = 0;
        return 1;
    };
    out[0] = ((49152 + offset) / 256 % 256) as u8;
    out[1] = (offset % 256) as u8;
    2
}

// One planned name.
pub fn put_name<'a>(out: &mut [u8], lent: Lent<'a>, name: &PlannedName) -> usize
    requires fit { Fit lent.table.now lent.request.now name.now }
    requires name_in_bounds { length (name_octets lent.table.now lent.request.now name.now) ≤ length out.old }
    ensures value { result ≡ length (name_octets lent.entry.table.now lent.entry.request.now name.now) }
    ensures out_after { out.new ≡ over (name_octets lent.entry.table.now lent.entry.request.now name.now) out.old }
{
    let literal = name.literal;
    put_labels(out, lent.text(name.text), literal);
    literal + put_ending(&mut out[literal..], name.pointer)
}

// Planned names, one after the other.
pub fn put_names<'a>(out: &mut [u8], lent: Lent<'a>, names: &[PlannedName]) -> usize
    requires all_fit { AllFit lent.table.now lent.request.now names.now }
    requires names_in_bounds { length (names_octets lent.table.now lent.request.now names.now) ≤ length out.old }
    ensures value { result ≡ length (names_octets lent.entry.table.now lent.entry.request.now names.now) }
    ensures out_after { out.new ≡ over (names_octets lent.entry.table.now lent.entry.request.now names.now) out.old }
{
    let mut at = 0;
    for name in names {
        at += put_name(&mut out[at..], lent, name);
    }
    at
}
