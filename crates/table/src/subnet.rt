// A subnet, by its record's octets.
#![tactic(auto, unfolding(crate::specs::Subnet::subnet_of))]

ghost use Rattle.std.specs.Prelude.{◌≡◌};
ghost use Rattle.table.specs.Subnet.{in_use_octet, subnet_of};

use crate::SiteNumber;
use crate::block::BLOCKS_MOST;
use crate::field::octet_in;
use crate::record::RecordFormat;
use crate::site::reference_in;
use octets::part::part;
use octets::size::IPV4_SIZE;

pub const FORMAT: RecordFormat = RecordFormat {
    kind: 6,
    count: 42,
    width: 12,
};

// As many subnets as the most blocks hold.
pub const MOST: usize = FORMAT.count * BLOCKS_MOST;

pub const ADDRESS: usize = 0;

pub const PREFIX: usize = 4;

const IN_USE: usize = 5;

pub const SITE: usize = 6;

pub fn address(octets: &[u8]) -> &[u8]
    ensures { result.now ≡ (subnet_of octets.now).address }
{
    part(octets, ADDRESS, IPV4_SIZE)
}

pub fn prefix(octets: &[u8]) -> u8
    ensures { result ≡ (subnet_of octets.now).prefix }
{
    octet_in(octets, PREFIX)
}

pub fn in_use_octet(octets: &[u8]) -> u8
    ensures { result ≡ in_use_octet octets.now }
{
    octet_in(octets, IN_USE)
}

pub fn site(octets: &[u8]) -> Option<SiteNumber>
    ensures { result ≡ (subnet_of octets.now).site }
{
    reference_in(octets, SITE)
}
