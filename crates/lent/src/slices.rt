// The two slices that a reply's texts are parts of, never copies.
ghost use Rattle.std.specs.Prelude.{◌≡◌};
ghost use Rattle.octets.specs.Stretch.{stretch_of};
ghost use Rattle.lent.specs.Internal.Stretch.{lent_by, octets_at};

use crate::stretch::{Lender, Stretch};
use octets::part;

// The table image, and the octets that the ping came in.
#[derive(Clone, Copy)]
pub struct Lent<'a> {
    pub table: &'a [u8],
    pub request: &'a [u8],
}

// The text of a slot, as a part of either of the two lent slices: as many of its octets as there are, however many it has.
pub fn slot_text<'a>(
    table: &'a [u8],
    request: &'a [u8],
    lender: Lender,
    slot: part::Stretch,
) -> &'a [u8]
    ensures { result.now ≡ stretch_of (lent_by table.now request.now lender) slot }
{
    match lender {
        Lender::Table => slot.of(table),
        Lender::Request => slot.of(request),
    }
}

impl<'a> Lent<'a> {
    // The octets of a stretch that are there.
    pub fn text(self, slot: Stretch) -> &'a [u8]
        ensures { result.now ≡ octets_at self.entry.table.now self.entry.request.now slot }
    {
        let stretch = part::Stretch {
            start: slot.start,
            len: slot.len,
        };
        slot_text(self.table, self.request, slot.lender, stretch)
    }
}
