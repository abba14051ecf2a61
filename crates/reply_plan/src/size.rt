// How many octets the parts of a reply take.
ghost use Rattle.std.specs.Prelude.{◌≡◌, ◌≤◌, length};
ghost use Rattle.lent.specs.Internal.Stretch.{octets_at};
ghost use Rattle.reply.specs.Reply.{text16, opening, address_if};
ghost use Rattle.reply.specs.Internal.RawReply.{reply_in};

use lent::slices::Lent;
use lent::stretch::Stretch;
use reply::raw::{CONTEXT_NETBIOS, RawReply, SERVER_NETBIOS, USER};
use unicode_text::utf16::utf16_size;

// The size, the family and the zeros of an address.
const ADDRESS_FIXED: usize = 13;

pub fn stretch_size<'a>(lent: Lent<'a>, stretch: Stretch) -> usize
    ensures { (result ≡ length (octets_at lent.entry.table.now lent.entry.request.now stretch)) × (result ≤ 255) }
{
    lent.text(stretch).len()
}

pub fn address_size<'a>(lent: Lent<'a>, asked: bool, ipv4: Stretch) -> usize
    ensures { (result ≡ length (address_if asked (octets_at lent.entry.table.now lent.entry.request.now ipv4))) × (result ≤ 268) }
{
    if !asked {
        return 0;
    }
    stretch_size(lent, ipv4) + ADDRESS_FIXED
}

// A text in UTF-16LE, its zero unit too.
fn text_size<'a>(lent: Lent<'a>, text: Stretch) -> usize
    ensures { (result ≡ length (text16 (octets_at lent.entry.table.now lent.entry.request.now text))) × (result ≤ 1022) }
{
    utf16_size(lent.text(text)) + 2
}

// The opcode and the three texts of the older forms.
pub fn opening_size<'a>(lent: Lent<'a>, raw: &RawReply) -> usize
    ensures { (result ≡ length (opening (reply_in lent.entry.table.now lent.entry.request.now raw.now))) × (result ≤ 3068) }
{
    2 + text_size(lent, raw.text(SERVER_NETBIOS))
        + text_size(lent, raw.text(USER))
        + text_size(lent, raw.text(CONTEXT_NETBIOS))
}
