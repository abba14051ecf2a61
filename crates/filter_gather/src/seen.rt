// The clauses of a filter that were read so far.
ghost use Rattle.std.specs.Prelude.{◌≡◌, ◌≤◌, ◌<◌, length};
ghost use Rattle.filter.specs.Request.{clause};
ghost use Rattle.filter_position.specs.Filter.{filter_limit};
ghost use Rattle.filter_position.specs.Internal.Position.{ClauseInside};
ghost use Rattle.filter_gather.specs.Internal.Gather.{Gathered, nothing, added};
ghost use Rattle.filter_gather.specs.Internal.Seen.{clause_count, packed, clause_seen, place_of, decoded};

use crate::letters::place_spelled;
use filter::request::{CLAUSE_NAMES, ClauseName, Request};
use filter_position::position::RawClause;
use octets::part::Stretch;
use std::marker::Model;

pub const CLAUSE_COUNT: usize = CLAUSE_NAMES.len();

// The first clause of each name, whether one was of another name, and whether one was there before. A clause stands as one number at
// the place of its name: 0 where it is absent, else its start times 65,536 and its length. No value starts at 0, as its tags stand
// before it. A request here, of stretches in place of numbers, took six times as long: it would be copied with every clause.
#[derive(Drop)]
pub struct SeenClauses {
    clauses: [u32; CLAUSE_COUNT],
    unknown: bool,
    duplicate: bool,
}

impl Model for SeenClauses {
    ghost Value = { Gathered };

    ghost view = { λ g. decoded g.clauses g.unknown g.duplicate };

    ghost invariant = { λ g. length g.clauses ≡ clause_count };
}

// A stretch as one number.
fn pack(stretch: Stretch) -> u32
    requires { (stretch.start < 65536) × (stretch.len < 65536) }
    ensures { result ≡ packed stretch }
{
    (65536 * stretch.start + stretch.len) as u32
}

// A clause as it was gathered.
fn clause_seen(x: u32) -> Option<Stretch>
    ensures { result ≡ clause_seen x }
{
    if x == 0 {
        return None;
    }
    Some(Stretch {
        start: (x / 65536) as usize,
        len: (x % 65536) as usize,
    })
}

// The place of a clause name.
fn place_of(name: ClauseName) -> usize
    ensures { result ≡ place_of name }
{
    name as usize
}

impl SeenClauses {
    // None was read.
    pub fn new() -> SeenClauses
        ensures { result ≡ nothing }
    {
        SeenClauses {
            clauses: [0; CLAUSE_COUNT],
            unknown: false,
            duplicate: false,
        }
    }

    // One more clause: of another name, of a name that is there already, or the first of its name.
    pub fn add(&mut self, s: &[u8], clause: RawClause)
        requires { (length s.now ≤ filter_limit) × ClauseInside (length s.now) clause }
        ensures { self.new ≡ added s.now self.old clause }
    {
        let place = place_spelled(s, clause.name);
        if CLAUSE_COUNT <= place {
            self.unknown = true;
            return;
        }
        if self.clauses[place] != 0 {
            self.duplicate = true;
            return;
        }
        self.clauses[place] = pack(clause.value);
    }

    // Whether a clause was of another name.
    pub fn has_unknown(&self) -> bool
        ensures { result ≡ self.now.unknown }
    {
        self.unknown
    }

    // Whether a clause was of a name that was there before.
    pub fn has_duplicate(&self) -> bool
        ensures { result ≡ self.now.duplicate }
    {
        self.duplicate
    }

    // The clause of one name.
    pub fn clause(&self, name: ClauseName) -> Option<Stretch>
        ensures { result ≡ clause self.now.request name }
    {
        clause_seen(self.clauses[place_of(name)])
    }

    // The request that was gathered.
    pub fn request(&self) -> Request
        ensures { result ≡ self.now.request }
    {
        Request {
            dns_domain: self.clause(ClauseName::DnsDomain),
            host: self.clause(ClauseName::Host),
            dns_host_name: self.clause(ClauseName::DnsHostName),
            user: self.clause(ClauseName::User),
            aac: self.clause(ClauseName::Aac),
            domain_sid: self.clause(ClauseName::DomainSid),
            domain_guid: self.clause(ClauseName::DomainGuid),
            nt_ver: self.clause(ClauseName::NtVer),
        }
    }
}
