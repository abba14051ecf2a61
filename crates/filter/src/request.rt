// A request: a clause, present or absent, for each clause name.
ghost use Rattle.std.specs.Prelude.{◌≡◌, None};
ghost use Rattle.filter.specs.Request.{spelling, request_by, clause};
ghost use Rattle.filter.specs.Internal.ClauseNames.{stored};

use octets::part::Stretch;

// The clause names, in document 01's order.
#[derive(Clone, Copy)]
pub enum ClauseName {
    DnsDomain,
    Host,
    DnsHostName,
    User,
    Aac,
    DomainSid,
    DomainGuid,
    NtVer,
}

pub const CLAUSE_NAMES: [ClauseName; 8] = [
    ClauseName::DnsDomain,
    ClauseName::Host,
    ClauseName::DnsHostName,
    ClauseName::User,
    ClauseName::Aac,
    ClauseName::DomainSid,
    ClauseName::DomainGuid,
    ClauseName::NtVer,
];

// A filter's clauses, one field for each clause name, in document 01's order: the stretch of octets of each that is present, which may
// be empty.
#[derive(Clone, Copy)]
pub struct Request {
    pub dns_domain: Option<Stretch>,
    pub host: Option<Stretch>,
    pub dns_host_name: Option<Stretch>,
    pub user: Option<Stretch>,
    pub aac: Option<Stretch>,
    pub domain_sid: Option<Stretch>,
    pub domain_guid: Option<Stretch>,
    pub nt_ver: Option<Stretch>,
}

// How a clause name is spelled.
pub fn spelling_of(name: ClauseName) -> &'static [u8]
    ensures { result.now ≡ spelling name }
{
    match name {
        ClauseName::DnsDomain => b"DnsDomain",
        ClauseName::Host => b"Host",
        ClauseName::DnsHostName => b"DnsHostName",
        ClauseName::User => b"User",
        ClauseName::Aac => b"AAC",
        ClauseName::DomainSid => b"DomainSid",
        ClauseName::DomainGuid => b"DomainGuid",
        ClauseName::NtVer => b"NtVer",
    }
}

// No clause is present.
pub fn no_clauses() -> Request
    ensures { result ≡ request_by (λ name. None) }
{
    Request {
        dns_domain: None,
        host: None,
        dns_host_name: None,
        user: None,
        aac: None,
        domain_sid: None,
        domain_guid: None,
        nt_ver: None,
    }
}

impl Request {
    // The clause of one name.
    pub fn clause(self, name: ClauseName) -> Option<Stretch>
        ensures { result ≡ clause self name }
    {
        match name {
            ClauseName::DnsDomain => self.dns_domain,
            ClauseName::Host => self.host,
            ClauseName::DnsHostName => self.dns_host_name,
            ClauseName::User => self.user,
            ClauseName::Aac => self.aac,
            ClauseName::DomainSid => self.domain_sid,
            ClauseName::DomainGuid => self.domain_guid,
            ClauseName::NtVer => self.nt_ver,
        }
    }

    // The request with its clause of one name set.
    #[tactic(auto, unfolding(octets::specs::Text::same, octets::specs::Text::lower))]
    pub fn with(self, name: ClauseName, clause: Option<Stretch>) -> Request
        ensures { result ≡ stored self name clause }
    {
        match name {
            ClauseName::DnsDomain => Request {
                dns_domain: clause,
                ..self
            },
            ClauseName::Host => Request {
                host: clause,
                ..self
            },
            ClauseName::DnsHostName => Request {
                dns_host_name: clause,
                ..self
            },
            ClauseName::User => Request {
                user: clause,
                ..self
            },
            ClauseName::Aac => Request {
                aac: clause,
                ..self
            },
            ClauseName::DomainSid => Request {
                domain_sid: clause,
                ..self
            },
            ClauseName::DomainGuid => Request {
                domain_guid: clause,
                ..self
            },
            ClauseName::NtVer => Request {
                nt_ver: clause,
                ..self
            },
        }
    }
}
