// The clauses of a filter, gathered one after the other.
ghost use Rattle.std.specs.Prelude.{◌≡◌, ◌≤◌, length};
ghost use Rattle.filter_position.specs.Filter.{filter_limit, and_of, clauses_of};
ghost use Rattle.filter_position.specs.Internal.Position.{Inside, FilterInside, clauses_in};
ghost use Rattle.filter_gather.specs.Internal.Gather.{name_spelled, gathered_from, gathering_of};

use crate::letters::place_spelled;
use crate::seen::{CLAUSE_COUNT, SeenClauses};
use filter::request::{CLAUSE_NAMES, ClauseName};
use filter_position::position::{Filter, Position};
use octets::part::Stretch;

// How many ANDs may stand one inside the other.
const DEPTH: u8 = 4;

// The clause name that octets spell.
pub fn name_of(s: &[u8]) -> Option<ClauseName>
    ensures { result ≡ name_spelled s.now }
{
    let whole = Stretch {
        start: 0,
        len: s.len(),
    };
    let place = place_spelled(s, whole);
    if CLAUSE_COUNT <= place {
        return None;
    }
    Some(CLAUSE_NAMES[place])
}

// The clauses of one filter, with `depth` ANDs left that may stand one inside the other; false where it is not of the shape.
#[cycle(and_of_one_of)]
fn one_of(s: &[u8], filter: Filter, depth: u8, seen: &mut SeenClauses) -> bool
    requires { (length s.now ≤ filter_limit) × FilterInside (length s.now) filter }
    ensures { gathering_of result seen.new ≡ gathered_from s.now seen.old (clauses_in depth s.now filter) }
{
    match filter {
        Filter::Clause(clause) => {
            seen.add(s, clause);
            true
        }
        Filter::And(inside) => and_of(s, inside, depth, seen),
    }
}

// The clauses of the filters that fill an AND, one at least. An element's length is the step: no `for`.
#[cycle(and_of_one_of)]
fn and_of(s: &[u8], inside: Position, depth: u8, seen: &mut SeenClauses) -> bool
    requires { (length s.now ≤ filter_limit) × Inside (length s.now) inside }
    ensures { gathering_of result seen.new ≡ gathered_from s.now seen.old (and_of depth s.now inside.at inside.end) }
{
    if depth == 0 {
        return false;
    }
    let mut position = inside;
    loop {
        let Some(read) = position.filter(s) else {
            return false;
        };
        if !one_of(s, read.filter, depth - 1, seen) {
            return false;
        }
        if read.rest.at == read.rest.end {
            return true;
        }
        position = read.rest;
    }
}

// The clauses of a whole filter: one filter that fills the octets.
pub fn whole(s: &[u8], seen: &mut SeenClauses) -> bool
    requires { length s.now ≤ filter_limit }
    ensures { gathering_of result seen.new ≡ gathered_from s.now seen.old (clauses_of s.now) }
{
    let end = s.len();
    let Some(read) = (Position { at: 0, end }).filter(s) else {
        return false;
    };
    if read.rest.at != end {
        return false;
    }
    one_of(s, read.filter, DEPTH, seen)
}
