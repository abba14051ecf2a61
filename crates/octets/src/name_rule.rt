// What parts a name, and how many octets a name of each kind may have.
pub const DOT: u8 = 46;

pub const DNS_NAME_MOST: usize = 253;

pub const NETBIOS_NAME_MOST: usize = 15;

pub const SITE_NAME_MOST: usize = 63;

pub const USER_NAME_MOST: usize = 63;
