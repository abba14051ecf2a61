// A filter gathered: its clauses, before a request or a ping is made of them.
ghost use Rattle.std.specs.Prelude.{◌≡◌};
ghost use Rattle.filter_gather.specs.Internal.Gather.{nothing};
ghost use Rattle.filter_read.specs.Taken.{request_in};
ghost use Rattle.filter_read.specs.Internal.ClausesRead.{request_read};

use answers::Refusal;
use filter_gather::gather::whole;
use filter_gather::seen::SeenClauses;
use filter_position::position::FILTER_LIMIT;

// A filter gathered: 5 by its length alone, then 6, 7 and 8, each judged over the whole filter.
pub fn read_clauses(s: &[u8], seen: &mut SeenClauses) -> Result<(), Refusal>
    requires { seen.old ≡ nothing }
    ensures { request_in s.now ≡ request_read result seen.new }
{
    if FILTER_LIMIT < s.len() {
        return Err(Refusal::FilterLength);
    }
    if !whole(s, seen) {
        return Err(Refusal::FilterShape);
    }
    if seen.has_unknown() {
        return Err(Refusal::UnknownClause);
    }
    if seen.has_duplicate() {
        return Err(Refusal::DuplicateClause);
    }
    Ok(())
}
