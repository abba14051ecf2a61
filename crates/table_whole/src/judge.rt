// An image judged: 1 to 4 in order, each over the whole image once the earlier ones passed.
ghost use Rattle.std.specs.Prelude.{◌≡◌};
ghost use Rattle.table_whole.specs.Judgement.{good_length, JudgePromise};

use crate::whole::good_whole;
use answers::Refusal;
use table::block::{BLOCK_SIZE, IMAGE_LEAST, IMAGE_MOST};
use table_blocks::layout::good_layouts;
use table_check::check::good_checks;

// A multiple of 512 from 1,024 to 65,536.
fn has_good_length(image: &[u8]) -> bool
    ensures { result ≡ good_length image.now }
{
    if image.len() < IMAGE_LEAST {
        return false;
    }
    if IMAGE_MOST < image.len() {
        return false;
    }
    image.len() % BLOCK_SIZE == 0
}

// The answer of judging an image: refused with 1 to 4, or accepted.
pub fn judge(image: &[u8]) -> Result<(), Refusal>
    ensures { JudgePromise image.now result }
{
    if !has_good_length(image) {
        return Err(Refusal::ImageLength);
    }
    if !good_checks(image) {
        return Err(Refusal::BlockCheck);
    }
    if !good_layouts(image) {
        return Err(Refusal::BlockLayout);
    }
    if !good_whole(image) {
        return Err(Refusal::TableWhole);
    }
    Ok(())
}
