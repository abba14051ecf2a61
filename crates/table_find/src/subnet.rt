// What is asked of a subnet, by its record's octets.
ghost use Rattle.std.specs.Prelude.{◌≡◌, ◌&&◌};
ghost use Rattle.table.specs.Subnet.{subnet_of};
ghost use Rattle.table.specs.Table.{is_used};
ghost use Rattle.table_find.specs.Find.{in_subnet};

use octets::text::all_zero;
use table::subnet;
use table_address::address::{address_number, share_prefix};

// Whether the subnet holds an address, given as a number.
#[tactic(auto, unfolding(crate::specs::Find::in_subnet))]
fn holds_address(octets: &[u8], address: u32) -> bool
    ensures { result ≡ in_subnet address (subnet_of octets.now) }
{
    let own = address_number(subnet::address(octets));
    share_prefix(subnet::prefix(octets), address, own)
}

// Whether a record in use holds an address. That it is all zeros is the longer test, so it comes last.
pub fn is_holder(octets: &[u8], address: u32) -> bool
    ensures { result ≡ (is_used octets.now && in_subnet address (subnet_of octets.now)) }
{
    holds_address(octets, address) && !all_zero(octets)
}
