// The first block of an image that breaks a rule.
ghost use Rattle.std.specs.Prelude.{◌≡◌, ◌≤◌, length};
ghost use Rattle.table.specs.Block.{image_most, blocks_of};
ghost use Rattle.table.specs.Server.{server_place};
ghost use Rattle.tablecheck.specs.Internal.First.{keeps, first_wrong};

use table::BlockPlace;
use table::block::{BLOCK_SIZE, block_at};
use table_blocks::layout::block_layout;
use table_check::check::good_check;

// What each block is held to by itself, 2 and 3. A closure is no plainer: one clause more had to tie what it answers to a definition.
#[derive(Clone, Copy)]
pub enum BlockRule {
    Check,
    Layout,
}

fn keeps_rule(rule: BlockRule, place: BlockPlace, block: &[u8]) -> bool
    ensures { result ≡ keeps rule place block.now }
{
    match rule {
        BlockRule::Check => good_check(block),
        BlockRule::Layout => block_layout(place, block),
    }
}

// The place of the first block that breaks a rule; the one after the last where none does.
pub fn first_wrong(image: &[u8], rule: BlockRule) -> usize
    requires { length image.now ≤ image_most }
    ensures { result ≡ first_wrong rule server_place (blocks_of image.now) }
{
    let n = image.len() / BLOCK_SIZE;
    for i in 0..n {
        let place = BlockPlace(i as u16);
        if !keeps_rule(rule, place, block_at(image, place)) {
            return i;
        }
    }
    n
}
