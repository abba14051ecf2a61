// The layout of each block of an image, by its kind and its place.
ghost use Rattle.std.specs.Prelude.{◌≡◌, ◌≤◌, length};
ghost use Rattle.octets.specs.Lists.{all, any};
ghost use Rattle.table.specs.Block.{image_most, blocks_of};
ghost use Rattle.table.specs.Format.{format_of, record_kinds, records_in};
ghost use Rattle.table.specs.Server.{server_place};
ghost use Rattle.table_layout.specs.Layout.{record_layout, records_layout, body_layout, block_layout, layouts_from};

use octets::part::part;
use octets::text::all_zero;
use table::block::{BLOCK_SIZE, block_at, body_of, kind_of, place_of, version_of};
use table::record::{RecordKind, format_of};
use table::{BlockPlace, forest, server};
use table_layout::layout::{
    account_layout, context_layout, forest_layout, server_layout, site_layout, subnet_layout,
};

// An unused record is all zeros, and no layout is looked for in it; a context's block holds a context.
fn record_layout(r: &[u8], kind: RecordKind) -> bool
    ensures { result ≡ record_layout kind r.now }
{
    match kind {
        RecordKind::Context => context_layout(r),
        RecordKind::Account => all_zero(r) || account_layout(r),
        RecordKind::Site => all_zero(r) || site_layout(r),
        RecordKind::Subnet => all_zero(r) || subnet_layout(r),
    }
}

fn all_records(b: &[u8], kind: RecordKind) -> bool
    ensures { result ≡ all (record_layout kind) (records_in (format_of kind) b.now) }
{
    let format = format_of(kind);
    let width = format.width;
    for i in 0..format.count {
        if !record_layout(part(b, width * i, width), kind) {
            return false;
        }
    }
    true
}

// Whether a block of this kind octet holds records of this kind, each by its layout.
fn records_layout(octet: u8, b: &[u8], kind: RecordKind) -> bool
    ensures { result ≡ records_layout octet b.now kind }
{
    let format = format_of(kind);
    if octet != format.kind {
        return false;
    }
    all_records(b, kind)
}

fn any_records_layout(octet: u8, b: &[u8]) -> bool
    ensures { result ≡ any (records_layout octet b.now) record_kinds }
{
    records_layout(octet, b, RecordKind::Context)
        | (records_layout(octet, b, RecordKind::Account)
            | (records_layout(octet, b, RecordKind::Site)
                | (records_layout(octet, b, RecordKind::Subnet) | false)))
}

// A body by its kind octet: kind 1 at block 0, kind 2 at block 1, and neither elsewhere.
fn body_layout(place: BlockPlace, octet: u8, b: &[u8]) -> bool
    ensures { result ≡ body_layout place octet b.now }
{
    if place == server::PLACE {
        return (octet == server::KIND) & server_layout(b);
    }
    if place == forest::PLACE {
        return (octet == forest::KIND) & forest_layout(b);
    }
    any_records_layout(octet, b)
}

pub fn block_layout(place: BlockPlace, block: &[u8]) -> bool
    ensures { result ≡ block_layout place block.now }
{
    let own = place_of(block);
    (version_of(block) == 1) & (own == place) & body_layout(place, kind_of(block), body_of(block))
}

// Whether each block of an image has the layout of its kind and names its own place.
pub fn good_layouts(image: &[u8]) -> bool
    requires { length image.now ≤ image_most }
    ensures { result ≡ layouts_from server_place (blocks_of image.now) }
{
    for i in 0..image.len() / BLOCK_SIZE {
        let place = BlockPlace(i as u16);
        if !block_layout(place, block_at(image, place)) {
            return false;
        }
    }
    true
}
