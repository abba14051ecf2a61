// The table image: document 01, "The table image". What stands where, and how it is read.
#![tactic(auto)]

pub mod account;
pub mod address;
pub mod bits;
pub mod block;
pub mod context;
pub mod field;
pub mod forest;
pub mod record;
pub mod same_name;
pub mod server;
pub mod site;
pub mod subnet;

// Naming-context numbers, site numbers and block places are three countings, and none is used for another.
#[derive(Clone, Copy, PartialEq, Eq, PartialOrd, Ord)]
pub struct ContextNumber(pub u16);

#[derive(Clone, Copy, PartialEq, Eq)]
pub struct SiteNumber(pub u16);

#[derive(Clone, Copy, PartialEq, Eq)]
pub struct BlockPlace(pub u16);

// Who asks: the client's IPv4 address, in dotted order.
#[derive(Clone, Copy)]
pub struct Caller {
    pub address: [u8; 4],
}
