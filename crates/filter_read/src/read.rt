// A filter taken apart.
ghost use Rattle.std.specs.Prelude.{◌≡◌};
ghost use Rattle.filter_read.specs.Taken.{TakeApartPromise};

use crate::clauses::read_clauses;
use answers::Refusal;
use filter::request::Request;
use filter_gather::seen::SeenClauses;

// The request of a filter, or 5 to 8.
pub fn take_apart(s: &[u8]) -> Result<Request, Refusal>
    ensures { TakeApartPromise s.now result }
{
    let mut seen = SeenClauses::new();
    read_clauses(s, &mut seen)?;
    Ok(seen.request())
}
