// The blocks of an image, lent as parts, and what each has at which octets.
ghost use Rattle.std.specs.Prelude.{◌≡◌};
ghost use Rattle.table.specs.Block.{kind_in, version_in, place_in, body};
ghost use Rattle.table.specs.Internal.BlockAt.{block_at};

use crate::BlockPlace;
use crate::field::{octet_in, u16_in};
use octets::part::part;

pub const BLOCK_SIZE: usize = 512;

// 2 to 128 blocks.
pub const IMAGE_LEAST: usize = 1024;

pub const IMAGE_MOST: usize = 65536;

pub const BLOCKS_MOST: usize = 128;

const KIND: usize = 0;

const VERSION: usize = 1;

const PLACE: usize = 2;

pub const BODY: usize = 4;

pub const BODY_SIZE: usize = 504;

pub const CHECK: usize = 508;

pub fn block_at(image: &[u8], place: BlockPlace) -> &[u8]
    ensures { result.now ≡ block_at image.now place }
{
    part(image, BLOCK_SIZE * (place.0 as usize), BLOCK_SIZE)
}

pub fn kind_of(block: &[u8]) -> u8
    ensures { result ≡ kind_in block.now }
{
    octet_in(block, KIND)
}

pub fn version_of(block: &[u8]) -> u8
    ensures { result ≡ version_in block.now }
{
    octet_in(block, VERSION)
}

// The place that a block says is its own.
pub fn place_of(block: &[u8]) -> BlockPlace
    ensures { result ≡ place_in block.now }
{
    BlockPlace(u16_in(block, PLACE))
}

pub fn body_of(block: &[u8]) -> &[u8]
    ensures { result.now ≡ body block.now }
{
    part(block, BODY, BODY_SIZE)
}
