// How many bits an address has.
pub const ADDRESS_BITS: u8 = 32;
