// Room that must be zero, and texts by their rules.
ghost use Rattle.std.specs.Prelude.{◌≡◌, ◌≤◌};
ghost use Rattle.table.specs.Block.{body_size};
ghost use Rattle.table.specs.Field.{field_end};
ghost use Rattle.table_layout.specs.Field.{zeros, text_field, last_text};
ghost use Rattle.table_layout.specs.Internal.Rule.{rule_of};

use name_rules::name_rule::{is_dns_name, is_netbios_name, is_site_name};
use octets::number::wide;
use octets::part::part;
use octets::text::all_zero;
use table::field::{TextField, octet_in, text_in};
use unicode_text::user_name::is_account_name;

// Whether the octets from one offset up to another are zero; where the end is not past the first there are none.
pub fn is_zero_room(s: &[u8], from: usize, end: usize) -> bool
    ensures { result ≡ zeros s.now from end }
{
    if end <= from {
        return true;
    }
    all_zero(part(s, from, end - from))
}

// What the text of a field must be.
#[derive(Drop)]
pub enum Rule {
    Dns,
    Netbios,
    NetbiosOrEmpty,
    Site,
    Account,
}

fn keeps(rule: Rule, s: &[u8]) -> bool
    ensures { result ≡ rule_of rule s.now }
{
    match rule {
        Rule::Dns => is_dns_name(s),
        Rule::Netbios => is_netbios_name(s),
        Rule::NetbiosOrEmpty => (s.len() == 0) | is_netbios_name(s),
        Rule::Site => is_site_name(s),
        Rule::Account => is_account_name(s),
    }
}

// The offset after a field's room.
fn field_end(field: TextField) -> usize
    requires { (field.offset ≤ body_size) × (field.room ≤ 255) }
    ensures { result ≡ field_end field }
{
    field.offset + 1 + field.room
}

// Whether a text keeps to its rule and its room, the unused rest of which is zero.
pub fn is_text_field(s: &[u8], rule: Rule, field: TextField) -> bool
    requires { (field.offset ≤ body_size) × (field.room ≤ 255) }
    ensures { result ≡ text_field (rule_of rule) s.now field }
{
    let offset = field.offset;
    let length = wide(octet_in(s, offset)) as usize;
    (length <= field.room)
        & keeps(rule, text_in(s, field))
        & is_zero_room(s, offset + 1 + length, field_end(field))
}

// Whether the last text of a body or a record keeps to its rule and its room, with zeros after it up to the end.
pub fn is_last_text(s: &[u8], rule: Rule, field: TextField, end: usize) -> bool
    requires { (field.offset ≤ body_size) × (field.room ≤ 255) }
    ensures { result ≡ last_text (rule_of rule) s.now field end }
{
    is_text_field(s, rule, field) & is_zero_room(s, field_end(field), end)
}
