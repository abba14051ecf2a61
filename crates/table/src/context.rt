// A naming context, by its record's octets.
#![tactic(auto, unfolding(crate::specs::Context::context_of))]

ghost use Rattle.std.specs.Prelude.{◌≡◌, eqb};
ghost use Rattle.table.specs.Context.{application_octet, has_sid_octet, sid_at_lem, context_of};

use crate::ContextNumber;
use crate::block::BODY_SIZE;
use crate::field::{TextField, octet_in, text_in, u16_in};
use crate::record::RecordFormat;
use octets::name_rule::{DNS_NAME_MOST, NETBIOS_NAME_MOST};
use octets::number::wide;
use octets::part::part;
use octets::size::GUID_SIZE;

pub const FORMAT: RecordFormat = RecordFormat {
    kind: 3,
    count: 1,
    width: BODY_SIZE,
};

const NUMBER: usize = 0;

const APPLICATION: usize = 2;

const HAS_SID: usize = 3;

pub const GUID: usize = 4;

pub const SID: usize = 20;

pub const SID_ROOM: usize = 68;

pub const NETBIOS: TextField = TextField {
    offset: 88,
    room: NETBIOS_NAME_MOST,
};

pub const DNS_NAME: TextField = TextField {
    offset: 104,
    room: DNS_NAME_MOST,
};

pub fn number(octets: &[u8]) -> ContextNumber
    ensures { result ≡ (context_of octets.now).number }
{
    ContextNumber(u16_in(octets, NUMBER))
}

pub fn application_octet(octets: &[u8]) -> u8
    ensures { result ≡ application_octet octets.now }
{
    octet_in(octets, APPLICATION)
}

pub fn is_application(octets: &[u8]) -> bool
    ensures { result ≡ (context_of octets.now).application }
{
    application_octet(octets) == 1
}

pub fn guid(octets: &[u8]) -> &[u8]
    ensures { result.now ≡ (context_of octets.now).guid }
{
    part(octets, GUID, GUID_SIZE)
}

pub fn has_sid_octet(octets: &[u8]) -> u8
    ensures { result ≡ has_sid_octet octets.now }
{
    octet_in(octets, HAS_SID)
}

pub fn has_sid(octets: &[u8]) -> bool
    ensures { result ≡ eqb (has_sid_octet octets.now) 1 }
{
    has_sid_octet(octets) == 1
}

// The octets in the SID's room, as many as their own count says; the context's SID where it has one.
pub fn sid(octets: &[u8]) -> &[u8]
    ensures { result.now ≡ sid_at_lem octets.now }
{
    let count = octet_in(octets, SID + 1);
    part(octets, SID, 8 + 4 * (wide(count) as usize))
}

pub fn dns_name(octets: &[u8]) -> &[u8]
    ensures { result.now ≡ (context_of octets.now).dns }
{
    text_in(octets, DNS_NAME)
}
