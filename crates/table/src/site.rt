// A site, by its record's octets, and sites that other records refer to.
#![tactic(auto, unfolding(crate::specs::Site::site_of))]

ghost use Rattle.std.specs.Prelude.{◌≡◌, ◌≤◌};
ghost use Rattle.octets.specs.Number.{u16_at};
ghost use Rattle.table.specs.Block.{block_size};
ghost use Rattle.table.specs.Countings.{site_or_none};
ghost use Rattle.table.specs.Site.{site_of};

use crate::SiteNumber;
use crate::field::{TextField, u16_in};
use crate::record::RecordFormat;
use octets::name_rule::SITE_NAME_MOST;

pub const FORMAT: RecordFormat = RecordFormat {
    kind: 5,
    count: 7,
    width: 72,
};

const NUMBER: usize = 0;

pub const NAME: TextField = TextField {
    offset: 2,
    room: SITE_NAME_MOST,
};

pub const NEXT: usize = 66;

// The site number at an offset, where 0 means none.
pub fn reference_in(octets: &[u8], offset: usize) -> Option<SiteNumber>
    requires { offset ≤ block_size }
    ensures { result ≡ site_or_none (u16_at octets.now offset) }
{
    let number = u16_in(octets, offset);
    if number == 0 {
        return None;
    }
    Some(SiteNumber(number))
}

pub fn number(octets: &[u8]) -> SiteNumber
    ensures { result ≡ (site_of octets.now).number }
{
    SiteNumber(u16_in(octets, NUMBER))
}

// The next closest site.
pub fn next(octets: &[u8]) -> Option<SiteNumber>
    ensures { result ≡ (site_of octets.now).next }
{
    reference_in(octets, NEXT)
}
