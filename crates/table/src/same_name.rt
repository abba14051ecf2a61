// When two DNS names are the same: one function for the judgement of a table and for looking a name up.
ghost use Rattle.std.specs.Prelude.{◌≡◌};
ghost use Rattle.table.specs.SameName.{same_dns_name};

use octets::text::same_folded;

#[tactic(auto, unfolding(crate::specs::SameName::same_dns_name))]
pub fn same_dns_name(a: &[u8], b: &[u8]) -> bool
    ensures { result ≡ same_dns_name a.now b.now }
{
    same_folded(a, b)
}
