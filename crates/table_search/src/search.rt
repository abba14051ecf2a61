// The search of every lookup but that of the nearest subnet: the first record in use that passes a test, block by block and record by record.
ghost use Rattle.std.specs.Prelude.{◌≡◌, ◌+◌, ◌≤◌, ◌<◌, ◌/◌, length, Bool, List, ℕ};
ghost use Rattle.octets.specs.Lists.{cut};
ghost use Rattle.table.specs.Block.{block_size, blocks_of, body_size};
ghost use Rattle.table.specs.Internal.BlockAt.{block_at};
ghost use Rattle.table_find.specs.Internal.Found.{record_found, LiesIn};
ghost use Rattle.table_find.specs.Internal.Search.{TestsAs, first_in_body, first_in_block, first_in};

use octets::part::part;
use octets::text::all_zero;
use table::BlockPlace;
use table::block::{BLOCK_SIZE, BODY, block_at, kind_of};
use table::record::{RecordKind, format_of};
use table_whole::image::AcceptedImage;

// The first that passes in the body at an offset. That a record is all zeros, and so unused, is the longer test, so it comes last.
fn first_in_body<F: Fn(&[u8]) -> bool>(
    image: &[u8],
    body: usize,
    kind: RecordKind,
    test: &F,
) -> Option<usize>
    requires body_in_bounds { body + body_size ≤ length image.now }
    requires callable { F.IsAlwaysCallable test.now }
    ensures result_value { (t : List ℕ → Bool) → TestsAs F.Fn test.now t → record_found image.now kind result ≡ first_in_body kind t (cut image.now body body_size) }
    ensures lies_in { LiesIn image.now kind result }
{
    let format = format_of(kind);
    for i in 0..format.count {
        let offset = body + format.width * i;
        let octets = part(image, offset, format.width);
        if test(octets) && !all_zero(octets) {
            return Some(offset);
        }
    }
    None
}

// The first that passes in the block at a place; a block of another kind has none.
fn first_in_block<F: Fn(&[u8]) -> bool>(
    image: &[u8],
    place: BlockPlace,
    kind: RecordKind,
    test: &F,
) -> Option<usize>
    requires place_in_bounds { place.0 < length image.now / block_size }
    requires callable { F.IsAlwaysCallable test.now }
    ensures result_value { (t : List ℕ → Bool) → TestsAs F.Fn test.now t → record_found image.now kind result ≡ first_in_block kind t (block_at image.now place) }
    ensures lies_in { LiesIn image.now kind result }
{
    if kind_of(block_at(image, place)) != format_of(kind).kind {
        return None;
    }
    first_in_body(image, BLOCK_SIZE * (place.0 as usize) + BODY, kind, test)
}

// The first record of an image that passes.
pub fn first_record<F: Fn(&[u8]) -> bool>(
    image: &AcceptedImage,
    kind: RecordKind,
    test: F,
) -> Option<usize>
    requires { F.IsAlwaysCallable test }
    ensures result_value { (t : List ℕ → Bool) → TestsAs F.Fn test t → record_found image.now kind result ≡ first_in kind t (blocks_of image.now) }
    ensures lies_in { LiesIn image.now kind result }
{
    let octets = image.octets();
    for i in 0..octets.len() / BLOCK_SIZE {
        if let Some(offset) = first_in_block(octets, BlockPlace(i as u16), kind, &test) {
            return Some(offset);
        }
    }
    None
}
