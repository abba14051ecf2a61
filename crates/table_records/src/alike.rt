// Records compared in pairs: few of them, as contexts are, since the pairs grow by the square.
ghost use Rattle.std.specs.Prelude.{◌≡◌, ℕ, Bool};
ghost use Rattle.octets.specs.Lists.{any, unique};
ghost use Rattle.table.specs.Context.{context_of};
ghost use Rattle.table.specs.SameName.{same_sid};
ghost use Rattle.table_records.specs.Internal.Alike.{contexts_alike_at, accounts_alike_at, subnets_alike_at};

use account_names::compare::same_account_name;
use folding::fold::FoldTable;
use octets::text::same_octets;
use table::record::{RecordKind, record_at};
use table::same_name::same_dns_name;
use table::{account, context, subnet};
use table_address::address::address_number;

// The records of one kind in an image, by their offsets: no two of them may be alike.
pub trait Alike {
    ghost alike: { Self → ℕ → ℕ → Bool };

    fn are_alike(&self, p: u16, q: u16) -> bool
        ensures { result ≡ alike self.now p q };
}

#[derive(Clone, Copy)]
pub struct Contexts<'a> {
    pub image: &'a [u8],
}

// The folding table is lent once for all comparisons.
#[derive(Clone, Copy)]
pub struct Accounts<'a> {
    pub image: &'a [u8],
    pub fold_table: &'a FoldTable,
}

#[derive(Clone, Copy)]
pub struct Subnets<'a> {
    pub image: &'a [u8],
}

// A context without SID has the SID of no other.
fn same_sid(a: &[u8], b: &[u8]) -> bool
    ensures { result ≡ same_sid (context_of a.now).sid (context_of b.now).sid }
{
    if !context::has_sid(a) {
        return false;
    }
    if !context::has_sid(b) {
        return false;
    }
    same_octets(context::sid(a), context::sid(b))
}

impl<'a> Alike for Contexts<'a> {
    ghost alike = { λ s. contexts_alike_at s.image.now };

    fn are_alike(&self, p: u16, q: u16) -> bool {
        let a = record_at(self.image, RecordKind::Context, p);
        let b = record_at(self.image, RecordKind::Context, q);
        (context::number(a) == context::number(b))
            | same_octets(context::guid(a), context::guid(b))
            | same_sid(a, b)
            | same_dns_name(context::dns_name(a), context::dns_name(b))
    }
}

impl<'a> Alike for Accounts<'a> {
    ghost alike = { λ s. accounts_alike_at s.image.now };

    fn are_alike(&self, p: u16, q: u16) -> bool {
        let a = record_at(self.image, RecordKind::Account, p);
        let b = record_at(self.image, RecordKind::Account, q);
        (account::context(a) == account::context(b))
            & same_account_name(account::name(a), account::name(b))
    }
}

// Subnets of different sites may be alike.
impl<'a> Alike for Subnets<'a> {
    ghost alike = { λ s. subnets_alike_at s.image.now };

    fn are_alike(&self, p: u16, q: u16) -> bool {
        let a = record_at(self.image, RecordKind::Subnet, p);
        let b = record_at(self.image, RecordKind::Subnet, q);
        (address_number(subnet::address(a)) == address_number(subnet::address(b)))
            & (subnet::prefix(a) == subnet::prefix(b))
    }
}

// Whether some record is like the one at p.
fn any_alike<R: Alike>(records: &R, p: u16, offsets: &[u16]) -> bool
    ensures { result ≡ any (R.alike records.now p) offsets.now }
{
    offsets.iter().any(|&q| records.are_alike(p, q))
}

// Whether no two records are alike.
pub fn all_unique<R: Alike>(records: &R, offsets: &[u16]) -> bool
    ensures { result ≡ unique (R.alike records.now) offsets.now }
{
    for i in 0..offsets.len() {
        if any_alike(records, offsets[i], &offsets[i + 1..]) {
            return false;
        }
    }
    true
}
