// Texts in UTF-16LE, as the two older forms have them.
ghost use Rattle.std.specs.Prelude.{◌≡◌, ◌+◌, ◌≤◌, length};
ghost use Rattle.octets.specs.Buffer.{over};
ghost use Rattle.lent.specs.Internal.OverAt.{over_at};
ghost use Rattle.lent.specs.Internal.Stretch.{octets_at};
ghost use Rattle.reply.specs.Reply.{text16};

use lent::put::put_u16_at;
use lent::slices::Lent;
use lent::stretch::Stretch;
use unicode_text::utf16::put_utf16;

// A text, ended by a zero unit.
fn put_text(out: &mut [u8], s: &[u8]) -> usize
    requires { (length s.now ≤ 255) × (length (text16 s.now) ≤ length out.old) }
    ensures value { result ≡ length (text16 s.now) }
    ensures out_after { out.new ≡ over (text16 s.now) out.old }
{
    let at = put_utf16(out, s);
    put_u16_at(out, at, 0)
}

// The text of a slot, at an offset.
pub fn put_text_at<'a>(out: &mut [u8], at: usize, lent: Lent<'a>, slot: Stretch) -> usize
    requires { at + length (text16 (octets_at lent.table.now lent.request.now slot)) ≤ length out.old }
    ensures value { result ≡ at + length (text16 (octets_at lent.entry.table.now lent.entry.request.now slot)) }
    ensures out_after { out.new ≡ over_at at (text16 (octets_at lent.entry.table.now lent.entry.request.now slot)) out.old }
{
    at + put_text(&mut out[at..], lent.text(slot))
}
