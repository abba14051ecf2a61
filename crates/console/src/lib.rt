// What the programs share: octets written in hex, and read from hex digits, and put one behind the other.
#![tactic(auto)]

pub mod hex;
pub mod source;
