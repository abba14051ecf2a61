// The check of each block.
ghost use Rattle.std.specs.Prelude.{◌≡◌, ◌*◌, ◌≤◌, ◌<◌, length};
ghost use Rattle.octets.specs.Lists.{all};
ghost use Rattle.table.specs.Block.{blocks_of};
ghost use Rattle.table_check.specs.Check.{good_check, CheckOfPromise};
ghost use Rattle.table_check.specs.Step.{sum, counted, step};

use octets::part::part;
use table::block::{BLOCK_SIZE, CHECK};
use table::field::u16_in;

// How many octets a step takes.
const STEP: usize = 16;

// The two sums of a check.
#[derive(Drop)]
pub struct Check {
    pub a: u32,
    pub b: u32,
}

// What a step takes of its octets: their sum, and each as often as it is counted.
#[derive(Drop)]
struct Sums {
    sum: u16,
    counted: u16,
}

// An octet as often as it is counted.
fn weighed(x: u8, times: u16) -> u16
    requires { times ≤ 16 }
    ensures { (result ≡ times * x) × (result ≤ 4080) }
{
    times * (x as u16)
}

// No sum of a step's octets leaves 16 bits: so the compiler adds several at a time.
fn sums_of(octets: &[u8]) -> Sums
    requires { length octets.now ≤ 16 }
    ensures { (result.sum ≡ sum octets.now) × (result.counted ≡ counted octets.now) }
{
    let mut sum: u16 = 0;
    let mut counted: u16 = 0;
    let mut left = octets.len() as u16;
    for x in octets {
        sum += *x as u16;
        counted += weighed(*x, left);
        left -= 1;
    }
    Sums { sum, counted }
}

// A step over some octets, with one remainder for each sum.
fn step(check: Check, octets: &[u8]) -> Check
    requires { (check.a < 65536) × (check.b < 65536) × (length octets.now ≤ 16) }
    ensures { result ≡ step check octets.now }
{
    let n = octets.len() as u32;
    let sums = sums_of(octets);
    Check {
        a: (check.a + (sums.sum as u32)) % 65536,
        b: (check.b + n * check.a + (sums.counted as u32)) % 65536,
    }
}

pub fn check_of(octets: &[u8]) -> Check
    ensures { CheckOfPromise octets.now result }
{
    let mut check = Check { a: 1, b: 0 };
    let mut left = octets;
    while let Some((front, rest)) = left.split_at_checked(STEP) {
        check = step(check, front);
        left = rest;
    }
    step(check, left)
}

pub fn good_check(block: &[u8]) -> bool
    ensures { result ≡ good_check block.now }
{
    let check = check_of(part(block, 0, CHECK));
    ((u16_in(block, CHECK) as u32) == check.a) & ((u16_in(block, CHECK + 2) as u32) == check.b)
}

// Whether each block of an image stores its own check.
pub fn good_checks(image: &[u8]) -> bool
    ensures { result ≡ all good_check (blocks_of image.now) }
{
    image.chunks_exact(BLOCK_SIZE).all(good_check)
}
