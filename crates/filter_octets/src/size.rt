// How many octets a written filter takes.
ghost use Rattle.std.specs.Prelude.{◌≡◌, ◌+◌, ◌^◌, ◌≤◌, ◌<◌, min, length};
ghost use Rattle.filter.specs.Request.{clause_names, spelling, octets_of};
ghost use Rattle.filter_octets.specs.Octets.{equality_for};
ghost use Rattle.filter_octets.specs.Internal.Size.{head_size, element_size, contents};

use filter::request::{CLAUSE_NAMES, ClauseName, Request, spelling_of};
use filter_position::position::SHORT_LIMIT;
use octets::part::Stretch;

// Lengths below this take one octet.
pub const ONE_OCTET_LIMIT: usize = SHORT_LIMIT as usize;

// Those from there to below this take 81h and one octet, and longer ones 82h and two.
pub const TWO_OCTETS_LIMIT: usize = 0x100;

// How many octets a clause name takes.
pub fn name_size(name: ClauseName) -> usize
    ensures value { result ≡ length (spelling name) }
    ensures upper_bound { result ≤ 11 }
{
    spelling_of(name).len()
}

// How many octets a tag and the shortest length of n octets take.
pub fn head_size(n: usize) -> usize
    ensures value { result ≡ head_size n }
    ensures upper_bound { result ≤ 4 }
{
    if n < ONE_OCTET_LIMIT {
        return 2;
    }
    if n < TWO_OCTETS_LIMIT {
        return 3;
    }
    4
}

// How many octets an element of n octets takes.
pub fn element_size(n: usize) -> usize
    requires { n + 4 < 2 ^ 64 }
    ensures value { result ≡ element_size n }
    ensures upper_bound { result ≤ n + 4 }
{
    head_size(n) + n
}

// How many octets the equality of a clause takes.
fn equality_size(source: &[u8], name: ClauseName, clause: Option<Stretch>) -> usize
    ensures { result ≡ length (equality_for name (octets_of source.now clause)) }
{
    let Some(stretch) = clause else {
        return 0;
    };
    let value = stretch.of(source);
    let inside = element_size(name_size(name)) + element_size(value.len());
    element_size(inside)
}

// Sums stop here, past every length that is written.
const CAP: usize = 4096;

// A sum that stops.
fn capped_sum(a: usize, b: usize) -> usize
    requires { a ≤ 4096 }
    ensures { result ≡ min (a + b) 4096 }
{
    if CAP - a < b {
        return CAP;
    }
    a + b
}

// How many octets the equalities of a request's clauses take, or 4,096 where they take more.
pub fn contents_size(source: &[u8], request: Request) -> usize
    ensures { result ≡ min (length (contents source.now request clause_names)) 4096 }
{
    let mut size = 0;
    for name in CLAUSE_NAMES {
        size = capped_sum(size, equality_size(source, name, request.clause(name)));
    }
    size
}
