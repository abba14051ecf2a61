// Two account names, by their folded code points: in order, and the same or not. Each is read up to the first difference.
ghost use Rattle.std.specs.Prelude.{◌≡◌, true, false, ◌+◌, ◌≤◌, ◌<◌, eqb, length, get_or, drop};
ghost use Rattle.octets.specs.Fold.{fold_point};
ghost use Rattle.octets.specs.Text.{lower};
ghost use Rattle.unicode_text.specs.Internal.Point.{point_limit, size_of};
ghost use Rattle.account_names.specs.AccountName.{same_account_name};
ghost use Rattle.std.specs.Ordering.{is_eq};
ghost use Rattle.account_names.specs.Internal.NameOrder.{compare_names, RankRead, GoesOn, Alike};

use crate::fold_table::FOLD_TABLE;
use folding::fold::FoldTable;
use octets::number::wide;
use octets::text::folded;
use std::cmp::Ordering;
use unicode_text::utf8::{NO_POINT, octet_at, point_of, point_of_more, point_of_two, size_of};

// A code point as it is ranked: one more than what it folds to, and 0 where none can be read, so that a name comes before
// those that it begins.
fn rank_of(fold_table: &FoldTable, point: u32) -> u32
    ensures { (point < point_limit → result ≡ fold_point point + 1) × (point_limit ≤ point → result ≡ 0) }
{
    if NO_POINT <= point {
        return 0;
    }
    fold_table.fold_point(point) + 1
}

fn rank_at(fold_table: &FoldTable, s: &[u8], at: usize) -> u32
    ensures { RankRead s.now at result (at + size_of (get_or s.now at 0)) }
{
    if s.len() <= at {
        return 0;
    }
    let lead = s[at];
    if lead < 0x80 {
        return rank_of(fold_table, wide(lead));
    }
    let point = point_of(
        lead,
        octet_at(s, at + 1),
        octet_at(s, at + 2),
        octet_at(s, at + 3),
    );
    rank_of(fold_table, point)
}

// Where neither can be read on: both at their ends, or one of them no UTF-8, which is the same as nothing.
fn compare_ends(a: &[u8], i: usize, b: &[u8], j: usize) -> Ordering
    requires { (RankRead a.now i 0 i) × (RankRead b.now j 0 j) }
    ensures { result ≡ compare_names (drop i a.now) (drop j b.now) }
{
    if i < a.len() {
        return Ordering::Greater;
    }
    if j < b.len() {
        return Ordering::Greater;
    }
    Ordering::Equal
}

fn are_below(x: u8, y: u8, limit: u8) -> bool
    ensures { (result ≡ true → (x < limit) × (y < limit)) × (result ≡ false → x ≡ y → limit ≤ x) }
{
    (x < limit) & (y < limit)
}

fn letters_alike(x: u8, y: u8) -> bool
    ensures { result ≡ eqb (lower x) (lower y) }
{
    if x == y {
        return true;
    }
    folded(x, true) == folded(y, true)
}

fn points_alike(fold_table: &FoldTable, p: u32, q: u32) -> bool
    ensures { result ≡ true → (p < point_limit) × (q < point_limit) × (fold_point p ≡ fold_point q) }
{
    if NO_POINT <= p {
        return false;
    }
    if NO_POINT <= q {
        return false;
    }
    fold_table.fold_point(p) == fold_table.fold_point(q)
}

// Both have this lead: the size of the character of three octets or four behind it where both have that, else 0.
fn same_more_size(a: &[u8], i: usize, b: &[u8], j: usize, lead: u8) -> usize
    requires { (0xE0 ≤ lead) × (i < length a.now) × (lead ≡ get_or a.now i 0) × (j < length b.now) × (lead ≡ get_or b.now j 0) }
    ensures { Alike a.now i b.now j result }
{
    let x = octet_at(a, i + 1);
    let y = octet_at(a, i + 2);
    let z = octet_at(a, i + 3);
    if NO_POINT <= point_of_more(lead, x, y, z) {
        return 0;
    }
    if octet_at(b, j + 1) != x {
        return 0;
    }
    if octet_at(b, j + 2) != y {
        return 0;
    }
    if lead < 0xF0 {
        return 3;
    }
    if octet_at(b, j + 3) != z {
        return 0;
    }
    4
}

// How many octets at two offsets are alike: a letter of ASCII in either case, a letter of two octets by the folding table, so that
// either case costs the same, or the same longer character. 0 where that cannot be said, as of letters of different sizes. It is
// called in one place, where it is inlined.
fn alike_size(fold_table: &FoldTable, a: &[u8], i: usize, b: &[u8], j: usize) -> usize
    ensures { Alike a.now i b.now j result }
{
    if a.len() <= i {
        return 0;
    }
    if b.len() <= j {
        return 0;
    }
    let x = a[i];
    let y = b[j];
    if are_below(x, y, 0x80) {
        if letters_alike(x, y) {
            return 1;
        }
        return 0;
    }
    if are_below(x, y, 0xE0) {
        if points_alike(
            fold_table,
            point_of_two(x, octet_at(a, i + 1)),
            point_of_two(y, octet_at(b, j + 1)),
        ) {
            return 2;
        }
        return 0;
    }
    if x != y {
        return 0;
    }
    same_more_size(a, i, b, j, x)
}

// Code point by code point, from one offset on in both: the two steps differ, so no `for`. What is alike is passed over before any is
// ranked: ranking costs more.
fn compare_from(fold_table: &FoldTable, a: &[u8], b: &[u8], start: usize) -> Ordering
    requires { (start ≤ length a.now) × (start ≤ length b.now) }
    ensures { result ≡ compare_names (drop start a.now) (drop start b.now) }
{
    let mut i = start;
    let mut j = start;
    loop {
        let size = alike_size(fold_table, a, i, b, j);
        if 0 < size {
            i += size;
            j += size;
        } else {
            let x = rank_at(fold_table, a, i);
            let y = rank_at(fold_table, b, j);
            let order = x.cmp(&y);
            if order.is_ne() {
                return order;
            }
            if x == 0 {
                return compare_ends(a, i, b, j);
            }
            i += size_of(a[i]);
            j += size_of(b[j]);
        }
    }
}

pub fn compare_names(fold_table: &FoldTable, a: &[u8], b: &[u8]) -> Ordering
    ensures { result ≡ compare_names a.now b.now }
{
    compare_from(fold_table, a, b, 0)
}

// The size of a character of two octets that both have at an offset, else 0.
fn same_two_size(a: &[u8], b: &[u8], at: usize) -> usize
    requires { (at < length a.now) × (at < length b.now) }
    ensures { Alike a.now at b.now at result }
{
    let lead = a[at];
    if 0xE0 <= lead {
        return 0;
    }
    let second = octet_at(a, at + 1);
    if NO_POINT <= point_of_two(lead, second) {
        return 0;
    }
    if b[at] != lead {
        return 0;
    }
    if octet_at(b, at + 1) != second {
        return 0;
    }
    2
}

// How many octets at an offset are alike without the folding table: a letter of ASCII, or one character of two octets.
fn plain_size(a: &[u8], b: &[u8], at: usize) -> usize
    ensures { Alike a.now at b.now at result }
{
    if a.len() <= at {
        return 0;
    }
    if b.len() <= at {
        return 0;
    }
    if !are_below(a[at], b[at], 0x80) {
        return same_two_size(a, b, at);
    }
    if letters_alike(a[at], b[at]) {
        return 1;
    }
    0
}

// Whether two letters of ASCII stand there that are not alike: then the names are not the same.
fn other_letter_at(a: &[u8], b: &[u8], at: usize) -> bool
    ensures { result ≡ true → is_eq (compare_names (drop at a.now) (drop at b.now)) ≡ false }
{
    if a.len() <= at {
        return false;
    }
    if b.len() <= at {
        return false;
    }
    are_below(a[at], b[at], 0x80) & !letters_alike(a[at], b[at])
}

// How many octets at their starts are alike so. The step is a character's: no `for`.
fn plain_start(a: &[u8], b: &[u8]) -> usize
    ensures { GoesOn a.now 0 result b.now 0 result }
{
    let mut at = 0;
    loop {
        let size = plain_size(a, b, at);
        if size == 0 {
            return at;
        }
        at += size;
    }
}

// Whether the names are the same from an offset on. The folding table is copied here.
fn same_rest(a: &[u8], b: &[u8], start: usize) -> bool
    requires { (start ≤ length a.now) × (start ≤ length b.now) }
    ensures { result ≡ is_eq (compare_names (drop start a.now) (drop start b.now)) }
{
    let fold_table = FOLD_TABLE;
    compare_from(&fold_table, a, b, start).is_eq()
}

// Whether both begin with letters of ASCII that are not alike: that alone tells most accounts from the name looked up.
pub fn first_letters_differ(a: &[u8], b: &[u8]) -> bool
    ensures { result ≡ true → same_account_name a.now b.now ≡ false }
{
    other_letter_at(a, b, 0)
}

// Most accounts differ from the name looked up in a letter of ASCII: the folding table is copied only where that does not tell. What
// copies it is called in two places, and so is not inlined: it would stand in the frame of every comparison.
pub fn same_account_name(a: &[u8], b: &[u8]) -> bool
    ensures { result ≡ same_account_name a.now b.now }
{
    let start = plain_start(a, b);
    if a.len() <= start {
        return same_rest(a, b, start);
    }
    if other_letter_at(a, b, start) {
        return false;
    }
    same_rest(a, b, start)
}
