// The server, by the octets of its block's body.
#![tactic(auto, unfolding(crate::specs::Server::server_of))]

ghost use Rattle.std.specs.Prelude.{◌≡◌, ◌≤◌, length};
ghost use Rattle.table.specs.Block.{block_size};
ghost use Rattle.table.specs.Server.{server_of};
ghost use Rattle.table.specs.Table.{table_from};

use crate::block::{block_at, body_of};
use crate::field::{TextField, u16_in, u32_in};
use crate::{BlockPlace, ContextNumber, SiteNumber};
use octets::name_rule::{DNS_NAME_MOST, NETBIOS_NAME_MOST};

pub const KIND: u8 = 1;

pub const PLACE: BlockPlace = BlockPlace(0);

const ROLES: usize = 0;

const STATE: usize = 4;

pub const ADDRESS: usize = 8;

const SITE: usize = 12;

const DEFAULT_CONTEXT: usize = 14;

pub const NETBIOS: TextField = TextField {
    offset: 16,
    room: NETBIOS_NAME_MOST,
};

pub const HOST: TextField = TextField {
    offset: 32,
    room: DNS_NAME_MOST,
};

// The bits past the twelve roles and past the four states.
pub const OTHER_ROLES: u32 = 0xFFFFF000;

pub const OTHER_STATE: u32 = 0xFFFFFFF0;

pub fn roles(octets: &[u8]) -> u32
    ensures { result ≡ (server_of octets.now).roles }
{
    u32_in(octets, ROLES)
}

pub fn state(octets: &[u8]) -> u32
    ensures { result ≡ (server_of octets.now).state }
{
    u32_in(octets, STATE)
}

pub fn own_site(octets: &[u8]) -> SiteNumber
    ensures { result ≡ (server_of octets.now).site }
{
    SiteNumber(u16_in(octets, SITE))
}

pub fn default_context(octets: &[u8]) -> ContextNumber
    ensures { result ≡ (server_of octets.now).default_context_lem }
{
    ContextNumber(u16_in(octets, DEFAULT_CONTEXT))
}

// The body of an image's server block.
pub fn server_of(image: &[u8]) -> &[u8]
    requires { block_size ≤ length image.now }
    ensures { server_of result.now ≡ (table_from image.now).server }
{
    body_of(block_at(image, PLACE))
}
