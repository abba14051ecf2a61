// The clause name that octets spell, told by how many they are and then letter by letter: no octet waits for another.
ghost use Rattle.std.specs.Prelude.{◌≡◌, cond, ◌+◌, ◌≤◌, eqb, length};
ghost use Rattle.octets.specs.Stretch.{stretch_of};
ghost use Rattle.octets.specs.Text.{lower};
ghost use Rattle.filter_gather.specs.Internal.Gather.{name_spelled};
ghost use Rattle.filter_gather.specs.Internal.Letters.{letters_at};
ghost use Rattle.filter_gather.specs.Internal.Seen.{place_as};

use crate::seen::CLAUSE_COUNT;
use filter::request::ClauseName;
use octets::part::Stretch;
use octets::text::folded;

// The places of the clause names, in document 01's order. They go as numbers, as they are indices and a name that may be missing would be
// handed back in memory.
const DNS_DOMAIN: usize = ClauseName::DnsDomain as usize;

const HOST: usize = ClauseName::Host as usize;

const DNS_HOST_NAME: usize = ClauseName::DnsHostName as usize;

const USER: usize = ClauseName::User as usize;

const AAC: usize = ClauseName::Aac as usize;

const DOMAIN_SID: usize = ClauseName::DomainSid as usize;

const DOMAIN_GUID: usize = ClauseName::DomainGuid as usize;

const NT_VER: usize = ClauseName::NtVer as usize;

// Whether an octet is a letter, ASCII case ignored.
fn is_letter(x: u8, small: u8) -> bool
    ensures { result ≡ eqb (lower x) small }
{
    folded(x, true) == small
}

// Whether the octets from `at` on are these letters, ASCII case ignored.
fn are_letters<const N: usize>(s: &[u8], at: usize, small: &[u8; N]) -> bool
    requires { at + N ≤ length s.now }
    ensures { result ≡ letters_at s.now at small.now }
{
    let mut same = true;
    for i in 0..N {
        same &= is_letter(s[at + i], small[i]);
    }
    same
}

fn place_if(spelled: bool, place: usize) -> usize
    ensures { result ≡ cond spelled place 8 }
{
    if spelled {
        return place;
    }
    CLAUSE_COUNT
}

// The place of the clause name that octets spell, CLAUSE_COUNT where they spell none.
pub fn place_spelled(s: &[u8], name: Stretch) -> usize
    requires { name.start + name.len ≤ length s.now }
    ensures { result ≡ place_as (name_spelled (stretch_of s.now name)) }
{
    let at = name.start;
    let len = name.len;
    if len == 3 {
        return place_if(are_letters(s, at, b"aac"), AAC);
    }
    if len == 4 {
        if are_letters(s, at, b"host") {
            return HOST;
        }
        return place_if(are_letters(s, at, b"user"), USER);
    }
    if len == 5 {
        return place_if(are_letters(s, at, b"ntver"), NT_VER);
    }
    if len == 9 {
        if are_letters(s, at, b"dnsdomain") {
            return DNS_DOMAIN;
        }
        return place_if(are_letters(s, at, b"domainsid"), DOMAIN_SID);
    }
    if len == 10 {
        return place_if(are_letters(s, at, b"domainguid"), DOMAIN_GUID);
    }
    if len == 11 {
        return place_if(are_letters(s, at, b"dnshostname"), DNS_HOST_NAME);
    }
    CLAUSE_COUNT
}
