// Where the records of one kind stand in an image: collected once, so that each rule about them is one loop.
ghost use Rattle.std.specs.Prelude.{◌≡◌, ◌++◌, ◌+◌, ◌*◌, ◌≤◌, length, take};
ghost use Rattle.table.specs.Block.{image_most, blocks_of};
ghost use Rattle.table.specs.Format.{format_of};
ghost use Rattle.table.specs.Table.{records_of};
ghost use Rattle.table_records.specs.Internal.Offset.{FitsBody, blocks_most, offsets_from, records_at, used_of};

use octets::part::part;
use octets::text::all_zero;
use table::BlockPlace;
use table::block::{BLOCK_SIZE, BODY, block_at, kind_of};
use table::record::{RecordFormat, RecordKind, format_of};

// Puts the offsets of the used records of a body after the first k of out, and gives back how many there are now.
fn add_offsets(image: &[u8], from: usize, format: &RecordFormat, out: &mut [u16], k: usize) -> usize
    requires { FitsBody format.now × (from + format.now.width * format.now.count ≤ image_most) × (k + format.now.count ≤ length out.old) }
    ensures out_after { take result out.new ≡ take k out.old ++ offsets_from image.now format.now.width from format.now.count }
    ensures upper_bound { result ≤ k + format.now.count }
{
    let mut count = k;
    for i in 0..format.count {
        let at = from + format.width * i;
        if !all_zero(part(image, at, format.width)) {
            out[count] = at as u16;
            count += 1;
        }
    }
    count
}

// The same of every block of a kind.
fn kind_offsets(image: &[u8], format: &RecordFormat, out: &mut [u16]) -> usize
    requires { (length image.now ≤ image_most) × FitsBody format.now × (format.now.count * blocks_most ≤ length out.old) }
    ensures out_after { records_at image.now format.now.width (take result out.new) ≡ used_of format.now (blocks_of image.now) }
    ensures upper_bound { result ≤ format.now.count * blocks_most }
{
    let mut count = 0;
    for place in 0..image.len() / BLOCK_SIZE {
        if kind_of(block_at(image, BlockPlace(place as u16))) == format.kind {
            count = add_offsets(image, BLOCK_SIZE * place + BODY, format, out, count);
        }
    }
    count
}

// Puts the offsets of the used records of a kind at the start of out, and gives back how many there are.
pub fn offsets_of(image: &[u8], kind: RecordKind, out: &mut [u16]) -> usize
    requires { (length image.now ≤ image_most) × ((format_of kind).count * blocks_most ≤ length out.old) }
    ensures out_after { records_at image.now (format_of kind).width (take result out.new) ≡ records_of kind (blocks_of image.now) }
    ensures upper_bound { result ≤ (format_of kind).count * blocks_most }
{
    let format = format_of(kind);
    kind_offsets(image, &format, out)
}

// The part of out that they fill.
pub fn offsets_in<'a>(image: &[u8], kind: RecordKind, out: &'a mut [u16]) -> &'a mut [u16]
    requires { (length image.now ≤ image_most) × ((format_of kind).count * blocks_most ≤ length out.old) }
    ensures records { records_at image.now (format_of kind).width result.now ≡ records_of kind (blocks_of image.now) }
    ensures upper_bound { length result.now ≤ (format_of kind).count * blocks_most }
{
    let count = offsets_of(image, kind, out);
    &mut out[..count]
}
