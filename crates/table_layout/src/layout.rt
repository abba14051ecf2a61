// The layouts of bodies and records, octet for octet. The tests of a layout are few, so each is made and none waits for another.
ghost use Rattle.std.specs.Prelude.{◌≡◌};
ghost use Rattle.table.specs.Context.{context_of};
ghost use Rattle.table_layout.specs.Layout.{server_layout, forest_layout, flags_layout, sid_layout, context_layout, account_layout, site_layout, subnet_layout};
ghost use Rattle.table_layout.specs.Internal.Rule.{netbios_rule};

use crate::field::{Rule, is_last_text, is_text_field, is_zero_room};
use name_rules::name_rule::is_sid;
use octets::text::all_zero;
use table::address::ADDRESS_BITS;
use table::block::BODY_SIZE;
use table::{account, context, forest, server, site, subnet};
use table_address::address::{address_number, is_prefix_only};

// Twelve roles and four states, and no other bit of theirs.
pub fn server_layout(b: &[u8]) -> bool
    ensures { result ≡ server_layout b.now }
{
    let own_site = server::own_site(b);
    let default_context = server::default_context(b);
    (server::roles(b) & server::OTHER_ROLES == 0)
        & (server::state(b) & server::OTHER_STATE == 0)
        & (own_site.0 != 0)
        & (default_context.0 != 0)
        & is_text_field(b, Rule::Netbios, server::NETBIOS)
        & is_last_text(b, Rule::Dns, server::HOST, BODY_SIZE)
}

pub fn forest_layout(b: &[u8]) -> bool
    ensures { result ≡ forest_layout b.now }
{
    is_last_text(b, Rule::Dns, forest::NAME, BODY_SIZE)
}

// Each flag is 0 or 1, and an application context has no SID.
fn flags_layout(b: &[u8]) -> bool
    ensures { result ≡ flags_layout b.now }
{
    let application = context::application_octet(b);
    let has_sid = context::has_sid_octet(b);
    (application < 2) & (has_sid < 2) & !((application == 1) & (has_sid == 1))
}

// A SID where the context has one, and else none.
fn sid_layout(b: &[u8]) -> bool
    ensures { result ≡ sid_layout (context_of b.now).sid b.now }
{
    let end = context::SID + context::SID_ROOM;
    if !context::has_sid(b) {
        return is_zero_room(b, context::SID, end);
    }
    let sid = context::sid(b);
    is_sid(sid) & is_zero_room(b, context::SID + sid.len(), end)
}

// An application context's NetBIOS name may be empty.
fn netbios_rule(application: bool) -> Rule
    ensures { result ≡ netbios_rule «application» }
{
    if application {
        return Rule::NetbiosOrEmpty;
    }
    Rule::Netbios
}

pub fn context_layout(b: &[u8]) -> bool
    ensures { result ≡ context_layout b.now }
{
    let number = context::number(b);
    let application = context::is_application(b);
    (number.0 != 0)
        & flags_layout(b)
        & !all_zero(context::guid(b))
        & sid_layout(b)
        & is_text_field(b, netbios_rule(application), context::NETBIOS)
        & is_last_text(b, Rule::Dns, context::DNS_NAME, context::FORMAT.width)
}

pub fn account_layout(r: &[u8]) -> bool
    ensures { result ≡ account_layout r.now }
{
    let context = account::context(r);
    (context.0 != 0)
        & is_zero_room(r, 2, account::CONTROL)
        & is_last_text(r, Rule::Account, account::NAME, account::FORMAT.width)
}

pub fn site_layout(r: &[u8]) -> bool
    ensures { result ≡ site_layout r.now }
{
    let number = site::number(r);
    (number.0 != 0)
        & is_text_field(r, Rule::Site, site::NAME)
        & is_zero_room(r, site::NEXT + 2, site::FORMAT.width)
}

pub fn subnet_layout(r: &[u8]) -> bool
    ensures { result ≡ subnet_layout r.now }
{
    let prefix = subnet::prefix(r);
    (prefix <= ADDRESS_BITS)
        & is_prefix_only(prefix, address_number(subnet::address(r)))
        & (subnet::in_use_octet(r) == 1)
        & is_zero_room(r, subnet::SITE + 2, subnet::FORMAT.width)
}
