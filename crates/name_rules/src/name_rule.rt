// What DNS, NetBIOS and site names must be, and a SID.
ghost use Rattle.std.specs.Prelude.{◌≡◌};
ghost use Rattle.octets.specs.Lists.{all};
ghost use Rattle.octets.specs.Label.{parts};
ghost use Rattle.octets.specs.NameRule.{sized, is_dns_name, is_plain_name, is_netbios_name, is_site_name};
ghost use Rattle.octets.specs.Sid.{is_sid};

use octets::name_rule::{DNS_NAME_MOST, DOT, NETBIOS_NAME_MOST, SITE_NAME_MOST};
use octets::number::wide;
use octets::text::{is_printable, lacks};

// How many octets a label may have.
const LABEL_MOST: usize = 63;

fn is_sized(s: &[u8], low: usize, high: usize) -> bool
    ensures { result ≡ sized low high s.now }
{
    low <= s.len() && s.len() <= high
}

// Whether no label is empty or too long.
pub fn has_good_labels(s: &[u8]) -> bool
    ensures { result ≡ all (sized 1 63) (parts s.now) }
{
    s.split(|x| *x == DOT)
        .all(|label| is_sized(label, 1, LABEL_MOST))
}

pub fn is_dns_name(s: &[u8]) -> bool
    ensures { result ≡ is_dns_name s.now }
{
    is_sized(s, 1, DNS_NAME_MOST) && is_printable(s) && has_good_labels(s)
}

fn is_plain_name(s: &[u8], room: usize) -> bool
    ensures { result ≡ is_plain_name room s.now }
{
    is_sized(s, 1, room) && is_printable(s) && lacks(s, DOT)
}

pub fn is_netbios_name(s: &[u8]) -> bool
    ensures { result ≡ is_netbios_name s.now }
{
    is_plain_name(s, NETBIOS_NAME_MOST)
}

pub fn is_site_name(s: &[u8]) -> bool
    ensures { result ≡ is_site_name s.now }
{
    is_plain_name(s, SITE_NAME_MOST)
}

pub fn is_sid(s: &[u8]) -> bool
    ensures { result ≡ is_sid s.now }
{
    if s.len() < 8 {
        return false;
    }
    if s[0] != 1 {
        return false;
    }
    let count = wide(s[1]) as usize;
    if 15 < count {
        return false;
    }
    s.len() == 8 + 4 * count
}
