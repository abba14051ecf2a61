// Writes a filter of a request's clauses.
ghost use Rattle.std.specs.Prelude.{◌≡◌, is_some};
ghost use Rattle.std.specs.List.{list_any};
ghost use Rattle.filter.specs.Request.{clause_names, clause};
ghost use Rattle.filter_write.specs.Write.{WriteFilterReturns, WriteFilterLeaves};

use answers::Refusal;
use filter::request::{CLAUSE_NAMES, Request};
use filter_octets::size::{contents_size, element_size};
use filter_position::position::FILTER_LIMIT;
use filter_put::put::put_filter;

// Whether a clause is present.
fn has_clause(request: Request) -> bool
    ensures { result ≡ list_any (λ name. is_some (clause request name)) clause_names }
{
    CLAUSE_NAMES
        .iter()
        .any(|name| request.clause(*name).is_some())
}

// Writes a filter of the clauses whose octets lie in the source: 6 where none is present, then 5, then 19, and the buffer unchanged.
// Its length is known before the first octet is written.
pub fn write_filter(source: &[u8], request: Request, out: &mut [u8]) -> Result<usize, Refusal>
    ensures write_filter_returns { WriteFilterReturns source.now request out.old result }
    ensures write_filter_leaves { WriteFilterLeaves source.now request out.old out.new }
{
    if !has_clause(request) {
        return Err(Refusal::FilterShape);
    }
    let size = contents_size(source, request);
    let total = element_size(size);
    if FILTER_LIMIT < total {
        return Err(Refusal::FilterLength);
    }
    if out.len() < total {
        return Err(Refusal::NoRoom);
    }
    put_filter(out, source, request, size);
    Ok(total)
}
