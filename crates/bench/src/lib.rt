// Proved code that the programs of bench/ time and that is no public call, for Rust to link.
#![tactic(auto)]

ghost use Rattle.std.specs.Prelude.{◌≡◌, ◌&&◌, ◌≤◌, ◌<◌, leb, length};
ghost use Rattle.octets.specs.Lists.{all};
ghost use Rattle.answers.specs.Try.{number_of};
ghost use Rattle.filter_read.specs.Value.{ping_from};
ghost use Rattle.mailslot.specs.Message.{message_in};
ghost use Rattle.table.specs.Block.{image_most, blocks_of};
ghost use Rattle.table_check.specs.Check.{good_check};

use answers::number_in;
use filter_read::ping::read_ping;
use lent::slices::Lent;
use lent::stretch::{Lender, Stretch};
use mailslot_read::read::read_message;
use names::plan::plan_names;
use names_write::put::put_names;
use octets::number::wide;
use table::block::IMAGE_MOST;
use table_check::check::good_checks;

// The checks of an image's blocks alone; false for an image that is too long.
#[unsafe(no_mangle)]
pub extern "C" fn bench_checks(image: &[u8]) -> bool
    ensures { result ≡ (leb (length image.now) image_most && all good_check (blocks_of image.now)) }
{
    if IMAGE_MOST < image.len() {
        return false;
    }
    good_checks(image)
}

// The number that reading a filter gives, as a ping has it read.
#[unsafe(no_mangle)]
pub extern "C" fn bench_read(filter: &[u8]) -> u8
    ensures { result ≡ number_of (ping_from filter.now) }
{
    number_in(&read_ping(filter))
}

// The number that reading a mailslot message gives.
#[unsafe(no_mangle)]
pub extern "C" fn bench_read_message(message: &[u8]) -> u8
    ensures { result ≡ number_of (message_in message.now) }
{
    number_in(&read_message(message))
}

// How far apart the texts of names lie in their source.
const TEXT_STEP: usize = 32;

// Where the names of an EX start.
const NAMES_START: usize = 24;

const NAMES: usize = 8;

fn text_at(place: usize, length: u8) -> Stretch
    requires { place ≤ 8 }
{
    Stretch {
        lender: Lender::Table,
        start: TEXT_STEP * place,
        len: wide(length) as usize,
    }
}

fn name_texts(lengths: &[u8; NAMES]) -> [Stretch; NAMES] {
    [
        text_at(0, lengths[0]),
        text_at(1, lengths[1]),
        text_at(2, lengths[2]),
        text_at(3, lengths[3]),
        text_at(4, lengths[4]),
        text_at(5, lengths[5]),
        text_at(6, lengths[6]),
        text_at(7, lengths[7]),
    ]
}

// Plans and writes eight names, as those of an EX; the octets written, 0 where they have no room.
#[unsafe(no_mangle)]
pub extern "C" fn bench_names(source: &[u8], lengths: &[u8; 8], out: &mut [u8]) -> usize {
    let lent = Lent {
        table: source,
        request: source,
    };
    let planned = plan_names(lent, &name_texts(lengths), NAMES_START);
    if out.len() < planned.end - NAMES_START {
        return 0;
    }
    put_names(out, lent, &planned.names[..NAMES])
}
