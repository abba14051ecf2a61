// Addresses and prefixes.
ghost use Rattle.std.specs.Prelude.{◌≡◌};
ghost use Rattle.table.specs.Address.{address_number, share_size, network_of, is_prefix_only, share_prefix};

use octets::number::wide;
use octets::size::IPV4_SIZE;
use table::Caller;
use table::address::ADDRESS_BITS;
use table::field::octet_in;

// Octets that are not there count as 0.
fn short_number(address: &[u8]) -> u32
    ensures { result ≡ address_number address.now }
{
    0x1000000 * wide(octet_in(address, 0))
        + 0x10000 * wide(octet_in(address, 1))
        + 0x100 * wide(octet_in(address, 2))
        + wide(octet_in(address, 3))
}

// An address as the number that prefixes are taken of. Its length is tested once, since many are compared.
pub fn address_number(address: &[u8]) -> u32
    ensures { result ≡ address_number address.now }
{
    if address.len() < IPV4_SIZE {
        return short_number(address);
    }
    0x1000000 * wide(address[0])
        + 0x10000 * wide(address[1])
        + 0x100 * wide(address[2])
        + wide(address[3])
}

// The same of a caller's address.
pub fn caller_number(caller: Caller) -> u32
    ensures { result ≡ address_number caller.address }
{
    address_number(&caller.address)
}

// How many addresses share a prefix.
fn share_size(prefix: u8) -> u64
    ensures { result ≡ share_size prefix }
{
    if ADDRESS_BITS <= prefix {
        return 1;
    }
    1 << (ADDRESS_BITS - prefix)
}

// An address with the bits past a prefix zero.
fn network_of(prefix: u8, address: u32) -> u64
    ensures { result ≡ network_of prefix address }
{
    let share = share_size(prefix);
    (address as u64) / share * share
}

// Whether the address bits past a prefix are zero.
pub fn is_prefix_only(prefix: u8, address: u32) -> bool
    ensures { result ≡ is_prefix_only prefix address }
{
    network_of(prefix, address) == (address as u64)
}

// Whether two addresses agree in the bits of a prefix.
pub fn share_prefix(prefix: u8, a: u32, b: u32) -> bool
    ensures { result ≡ share_prefix prefix a b }
{
    network_of(prefix, a) == network_of(prefix, b)
}
