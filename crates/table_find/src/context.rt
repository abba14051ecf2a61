// What is asked of a naming context, by its record's octets.
ghost use Rattle.std.specs.Prelude.{◌≡◌};
ghost use Rattle.table.specs.Context.{context_of};
ghost use Rattle.table.specs.Countings.{same_context};
ghost use Rattle.table_find.specs.Find.{name_compared, is_named_by, holds_sid};

use octets::name_rule::DOT;
use octets::part::part;
use octets::text::same_octets;
use table::same_name::same_dns_name;
use table::{ContextNumber, context};

// Whether the context has this SID; one without SID has none.
#[tactic(auto, unfolding(crate::specs::Find::holds_sid, table::specs::Context::context_of))]
pub fn holds_sid(octets: &[u8], sid: &[u8]) -> bool
    ensures { result ≡ holds_sid sid.now (context_of octets.now) }
{
    context::has_sid(octets) && same_octets(context::sid(octets), sid)
}

// A DnsDomain value as it is compared: some consoles close a name with a dot.
fn name_compared(asked: &[u8]) -> &[u8]
    ensures { result.now ≡ name_compared asked.now }
{
    let count = asked.len();
    if count < 2 {
        return asked;
    }
    if asked[count - 1] != DOT {
        return asked;
    }
    if asked[count - 2] == DOT {
        return asked;
    }
    part(asked, 0, count - 1)
}

// Whether a DnsDomain value names the context.
#[tactic(auto, unfolding(crate::specs::Find::is_named_by))]
pub fn is_named_by(octets: &[u8], asked: &[u8]) -> bool
    ensures { result ≡ is_named_by asked.now (context_of octets.now) }
{
    same_dns_name(context::dns_name(octets), name_compared(asked))
}

pub fn is_numbered(octets: &[u8], asked: ContextNumber) -> bool
    ensures { result ≡ same_context (context_of octets.now).number asked }
{
    context::number(octets) == asked
}
