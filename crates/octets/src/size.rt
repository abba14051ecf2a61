// How many octets a GUID and an IPv4 address have.
pub const GUID_SIZE: usize = 16;

pub const IPV4_SIZE: usize = 4;
