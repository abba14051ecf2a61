// The ping of a filter, as it stands in the octets it came in.
ghost use Rattle.std.specs.Prelude.{◌≡◌};
ghost use Rattle.filter_read.specs.Value.{ping_in, ping_from};
ghost use Rattle.filter_read.specs.Internal.RawPing.{tried_ping};

use crate::clauses::read_clauses;
use crate::wrong_value::{has_wrong_value, number_or};
use answers::Refusal;
use answers::wire::NETLOGON_NT_VERSION_1;
use filter::request::ClauseName;
use filter_gather::seen::SeenClauses;
use octets::part::Stretch;

// What the answer goes by: the clauses as stretches of a lent source, AAC and version as numbers.
#[derive(Clone, Copy)]
pub struct RawPing {
    pub dns_domain: Option<Stretch>,
    pub user: Option<Stretch>,
    pub aac: u32,
    pub domain_sid: Option<Stretch>,
    pub domain_guid: Option<Stretch>,
    pub version: u32,
}

// The values of what was gathered, judged, and the ping that they make; an absent AAC is 0, an absent version 1.
fn judged_ping(s: &[u8], seen: &SeenClauses) -> Result<RawPing, Refusal>
    ensures { tried_ping s.now result ≡ ping_in s.now seen.now.request }
{
    let nt_ver = seen.clause(ClauseName::NtVer);
    let aac = seen.clause(ClauseName::Aac);
    let user = seen.clause(ClauseName::User);
    if has_wrong_value(s, nt_ver, aac, user) {
        return Err(Refusal::ClauseValue);
    }
    Ok(RawPing {
        dns_domain: seen.clause(ClauseName::DnsDomain),
        user,
        aac: number_or(s, aac, 0),
        domain_sid: seen.clause(ClauseName::DomainSid),
        domain_guid: seen.clause(ClauseName::DomainGuid),
        version: number_or(s, nt_ver, NETLOGON_NT_VERSION_1),
    })
}

// A filter taken apart and its values judged: its ping, or 5 to 9.
pub fn read_ping(filter: &[u8]) -> Result<RawPing, Refusal>
    ensures { tried_ping filter.now result ≡ ping_from filter.now }
{
    let mut seen = SeenClauses::new();
    read_clauses(filter, &mut seen)?;
    judged_ping(filter, &seen)
}
