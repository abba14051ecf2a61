// The nearest subnet that holds an address: one pass over the subnets, in which a later one takes the place of one with a shorter prefix.
ghost use Rattle.std.specs.Prelude.{◌≡◌, ◌+◌, ◌≤◌, length};
ghost use Rattle.octets.specs.Lists.{cut};
ghost use Rattle.table.specs.declared.record.RecordKind.TheVariants as kind;
ghost use Rattle.table.specs.Block.{blocks_of, body_size};
ghost use Rattle.table.specs.Subnet.{subnet_format, subnet_of};
ghost use Rattle.table_find.specs.Internal.Found.{LiesIn, subnet_at};
ghost use Rattle.table_find.specs.Internal.Nearest.{longer, nearest_in_body, nearest_in};

use octets::part::part;
use table::block::{BLOCK_SIZE, BODY, block_at, kind_of};
use table::{BlockPlace, subnet};
use table_find::subnet::is_holder;
use table_whole::image::AcceptedImage;

fn prefix_at(image: &[u8], offset: usize) -> u8
    ensures { result ≡ (subnet_of (cut image.now offset subnet_format.width)).prefix }
{
    subnet::prefix(part(image, offset, subnet::FORMAT.width))
}

// The longer of the one found so far and the record at an offset, which holds the address.
fn longer_prefix(image: &[u8], best: Option<usize>, offset: usize) -> Option<usize>
    requires { (offset + subnet_format.width ≤ length image.now) × LiesIn image.now kind.Subnet best }
    ensures result_value { subnet_at image.now result ≡ longer (subnet_at image.now best) (subnet_of (cut image.now offset subnet_format.width)) }
    ensures lies_in { LiesIn image.now kind.Subnet result }
{
    match best {
        Some(before) if prefix_at(image, offset) <= prefix_at(image, before) => best,
        _ => Some(offset),
    }
}

// The nearest after the body at an offset.
fn nearest_in_body(image: &[u8], start: Option<usize>, body: usize, address: u32) -> Option<usize>
    requires { (body + body_size ≤ length image.now) × LiesIn image.now kind.Subnet start }
    ensures result_value { subnet_at image.now result ≡ nearest_in_body address (subnet_at image.now start) (cut image.now body body_size) }
    ensures lies_in { LiesIn image.now kind.Subnet result }
{
    let mut best = start;
    for i in 0..subnet::FORMAT.count {
        let offset = body + subnet::FORMAT.width * i;
        if is_holder(part(image, offset, subnet::FORMAT.width), address) {
            best = longer_prefix(image, best, offset);
        }
    }
    best
}

// The nearest of an image.
pub fn nearest_subnet(image: &AcceptedImage, address: u32) -> Option<usize>
    ensures result_value { subnet_at image.now result ≡ nearest_in address None (blocks_of image.now) }
    ensures lies_in { LiesIn image.now kind.Subnet result }
{
    let octets = image.octets();
    let mut best = None;
    for i in 0..octets.len() / BLOCK_SIZE {
        if kind_of(block_at(octets, BlockPlace(i as u16))) == subnet::FORMAT.kind {
            best = nearest_in_body(octets, best, BLOCK_SIZE * i + BODY, address);
        }
    }
    best
}
