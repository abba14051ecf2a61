// The kinds of blocks that hold records.
ghost use Rattle.std.specs.Prelude.{◌≡◌};
ghost use Rattle.table.specs.Format.{format_of};
ghost use Rattle.table.specs.Internal.RecordAt.{record_at};

use crate::{account, context, site, subnet};
use octets::part::part;

#[derive(Clone, Copy)]
pub enum RecordKind {
    Context,
    Account,
    Site,
    Subnet,
}

// The kind of the blocks that hold such records, how many there are in a body, and of how many octets each.
#[derive(Drop)]
pub struct RecordFormat {
    pub kind: u8,
    pub count: usize,
    pub width: usize,
}

pub fn format_of(kind: RecordKind) -> RecordFormat
    ensures { result ≡ format_of kind }
{
    match kind {
        RecordKind::Context => context::FORMAT,
        RecordKind::Account => account::FORMAT,
        RecordKind::Site => site::FORMAT,
        RecordKind::Subnet => subnet::FORMAT,
    }
}

// The record of a kind at an offset of the image.
pub fn record_at(image: &[u8], kind: RecordKind, offset: u16) -> &[u8]
    ensures { result.now ≡ record_at image.now kind offset }
{
    let format = format_of(kind);
    let width = format.width;
    part(image, offset as usize, width)
}
