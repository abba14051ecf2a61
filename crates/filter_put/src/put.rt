// Writes the parts of a filter into a buffer that has the room.
ghost use Rattle.std.specs.Prelude.{◌≡◌, ◌∷◌, ◌+◌, ◌≤◌, ◌<◌, length, Some};
ghost use Rattle.octets.specs.Buffer.{over};
ghost use Rattle.filter_position.specs.Filter.{filter_limit, string_tag};
ghost use Rattle.filter.specs.Request.{clause_names, spelling, octets_of};
ghost use Rattle.filter_octets.specs.Octets.{length_octets, element, equality_for, filter_octets};
ghost use Rattle.filter_octets.specs.Internal.Size.{head_size, element_size, contents};

use filter::request::{CLAUSE_NAMES, ClauseName, Request, spelling_of};
use filter_octets::size::{ONE_OCTET_LIMIT, TWO_OCTETS_LIMIT, element_size, name_size};
use filter_position::position::{AND_TAG, EQUALITY_TAG, ONE_AFTER, STRING_TAG, TWO_AFTER};
use lent::put::put_octets_at;
use octets::part::Stretch;

// A tag and the shortest length of n octets.
fn put_head(out: &mut [u8], tag: u8, n: usize) -> usize
    requires { (n < 65536) × (head_size n ≤ length out.old) }
    ensures value { result ≡ head_size n }
    ensures out_after { out.new ≡ over (tag ∷ length_octets n) out.old }
{
    out[0] = tag;
    if n < ONE_OCTET_LIMIT {
        out[1] = n as u8;
        return 2;
    }
    if n < TWO_OCTETS_LIMIT {
        out[1] = ONE_AFTER;
        out[2] = n as u8;
        return 3;
    }
    out[1] = TWO_AFTER;
    out[2] = (n / 256) as u8;
    out[3] = (n % 256) as u8;
    4
}

// An octet string.
fn put_string(out: &mut [u8], s: &[u8]) -> usize
    requires { (length s.now < 65536) × (element_size (length s.now) ≤ length out.old) }
    ensures value { result ≡ element_size (length s.now) }
    ensures out_after { out.new ≡ over (element string_tag s.now) out.old }
{
    let at = put_head(out, STRING_TAG, s.len());
    put_octets_at(out, at, s)
}

// A clause name as an octet string.
fn put_name(out: &mut [u8], name: ClauseName) -> usize
    requires { element_size (length (spelling name)) ≤ length out.old }
    ensures value { result ≡ element_size (length (spelling name)) }
    ensures out_after { out.new ≡ over (element string_tag (spelling name)) out.old }
{
    put_string(out, spelling_of(name))
}

// The equality of a name and a value, whose contents are `size` octets.
fn put_pair(out: &mut [u8], name: ClauseName, value: &[u8], size: usize) -> usize
    requires size_value { size ≡ element_size (length (spelling name)) + element_size (length value.now) }
    requires size_in_bounds { (element_size size ≤ length out.old) × (element_size size ≤ filter_limit) }
    ensures value { result ≡ element_size size }
    ensures out_after { out.new ≡ over (equality_for name (Some value.now)) out.old }
{
    let name_at = put_head(out, EQUALITY_TAG, size);
    let value_at = name_at + put_name(&mut out[name_at..], name);
    value_at + put_string(&mut out[value_at..], value)
}

// The equality of a clause, where it is present.
fn put_equality(out: &mut [u8], source: &[u8], name: ClauseName, clause: Option<Stretch>) -> usize
    requires clause_in_bounds { length (equality_for name (octets_of source.now clause)) ≤ length out.old }
    requires clause_len_bound { length (equality_for name (octets_of source.now clause)) ≤ filter_limit }
    ensures value { result ≡ length (equality_for name (octets_of source.now clause)) }
    ensures out_after { out.new ≡ over (equality_for name (octets_of source.now clause)) out.old }
{
    let Some(stretch) = clause else {
        return 0;
    };
    let value = stretch.of(source);
    let size = element_size(name_size(name)) + element_size(value.len());
    put_pair(out, name, value, size)
}

// The present clauses, in document 01's order.
fn put_clauses(out: &mut [u8], source: &[u8], request: Request)
    requires clause_names_in_bounds { length (contents source.now request clause_names) ≤ length out.old }
    requires clause_names_len_bound { length (contents source.now request clause_names) ≤ filter_limit }
    ensures { out.new ≡ over (contents source.now request clause_names) out.old }
{
    let mut at = 0;
    for name in CLAUSE_NAMES {
        at += put_equality(&mut out[at..], source, name, request.clause(name));
    }
}

// The clauses inside one AND, whose contents are `size` octets.
pub fn put_filter(out: &mut [u8], source: &[u8], request: Request, size: usize)
    requires size_value { size ≡ length (contents source.now request clause_names) }
    requires size_in_bounds { (element_size size ≤ length out.old) × (element_size size ≤ filter_limit) }
    ensures { out.new ≡ over (filter_octets source.now request) out.old }
{
    let at = put_head(out, AND_TAG, size);
    put_clauses(&mut out[at..], source, request);
}
