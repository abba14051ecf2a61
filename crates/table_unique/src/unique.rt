// Whether no two records are alike: sorted, those that are alike stand next to each other.
ghost use Rattle.std.specs.Prelude.{◌≡◌};
ghost use Rattle.std.specs.List.Sorted.{IsPermutation};
ghost use Rattle.octets.specs.Lists.{unique};
ghost use Rattle.table_records.specs.Internal.Alike.{accounts_alike_at, subnets_alike_at};
ghost use Rattle.table_unique.specs.Internal.Neighbours.{neighbours_by};

use account_names::fold_table::FOLD_TABLE;
use std::cmp::Ordering;
use table_compare::compare::Keyed;
use table_records::alike::{Accounts, Subnets, all_unique};
use table_sort::sort::Sorted;

// What the first neighbours out of order show, if there are any: two that are alike, or a list that is not sorted.
#[derive(Drop)]
pub enum Neighbours {
    Rising,
    Duplicate,
    Unsorted,
}

fn compare_neighbours<K: Keyed>(records: &K, offsets: &[u16]) -> Neighbours
    ensures { result ≡ neighbours_by (K.compare records.now) offsets.now }
{
    for i in 1..offsets.len() {
        match records.compare(offsets[i - 1], offsets[i]) {
            Ordering::Less => {}
            Ordering::Equal => return Neighbours::Duplicate,
            Ordering::Greater => return Neighbours::Unsorted,
        }
    }
    Neighbours::Rising
}

// A table kept in order is not sorted again.
fn put_in_order<K: Sorted>(records: &K, offsets: &mut [u16])
    ensures { IsPermutation offsets.old offsets.new }
{
    if let Neighbours::Unsorted = compare_neighbours(records, offsets) {
        records.sort(offsets);
    }
}

// A list that the sort left unsorted would be compared in pairs: slow, and right all the same.
fn are_unique<K: Sorted>(records: &K, offsets: &mut [u16]) -> bool
    ensures { result ≡ unique (K.alike records.now) offsets.old }
{
    put_in_order(records, offsets);
    match compare_neighbours(records, offsets) {
        Neighbours::Rising => true,
        Neighbours::Duplicate => false,
        Neighbours::Unsorted => all_unique(records, offsets),
    }
}

// The folding table is copied here, once for all accounts, and not for fewer than two.
pub fn are_accounts_unique(image: &[u8], accounts: &mut [u16]) -> bool
    ensures { result ≡ unique (accounts_alike_at image.now) accounts.old }
{
    if accounts.len() < 2 {
        return true;
    }
    let fold_table = FOLD_TABLE;
    let records = Accounts {
        image,
        fold_table: &fold_table,
    };
    are_unique(&records, accounts)
}

// Subnets are compared without the folding table.
pub fn are_networks_unique(image: &[u8], subnets: &mut [u16]) -> bool
    ensures { result ≡ unique (subnets_alike_at image.now) subnets.old }
{
    are_unique(&Subnets { image }, subnets)
}
