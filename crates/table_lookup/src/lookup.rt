// The lookups of document 01, "Choosing the answer", in an accepted image: the offset of a record, or nothing.
ghost use Rattle.std.specs.Prelude.{◌≡◌};
ghost use Rattle.table.specs.declared.record.RecordKind.TheVariants as kind;
ghost use Rattle.table.specs.Table.{table_from};
ghost use Rattle.table_lookup.specs.Lookup.{context_by_number, context_by_guid, context_by_dns_name, context_by_sid, default_context_lem};
ghost use Rattle.table_lookup.specs.Lookup.{account_by_name, site_by_number, site_if_any, subnet_for, site_of_subnet, client_site_lem};
ghost use Rattle.table_find.specs.Internal.Found.{LiesIn, context_at, account_at, site_at, subnet_at};

use octets::part::part;
use octets::text::same_octets;
use table::record::RecordKind;
use table::{Caller, ContextNumber, SiteNumber, context, server, site, subnet};
use table_address::address::caller_number;
use table_find::account::is_account;
use table_find::context::{holds_sid, is_named_by, is_numbered};
use table_find::site::is_site_numbered;
use table_search::nearest::nearest_subnet;
use table_search::search::first_record;
use table_whole::image::AcceptedImage;

pub fn context_by_number(image: &AcceptedImage, number: ContextNumber) -> Option<usize>
    ensures result_value { context_at image.now result ≡ context_by_number (table_from image.now) number }
    ensures lies_in { LiesIn image.now kind.Context result }
{
    first_record(
        image,
        RecordKind::Context,
        |octets| is_numbered(octets, number),
    )
}

pub fn context_by_guid(image: &AcceptedImage, guid: &[u8]) -> Option<usize>
    ensures result_value { context_at image.now result ≡ context_by_guid (table_from image.now) guid.now }
    ensures lies_in { LiesIn image.now kind.Context result }
{
    first_record(
        image,
        RecordKind::Context,
        |octets| same_octets(context::guid(octets), guid),
    )
}

pub fn context_by_dns_name(image: &AcceptedImage, name: &[u8]) -> Option<usize>
    ensures result_value { context_at image.now result ≡ context_by_dns_name (table_from image.now) name.now }
    ensures lies_in { LiesIn image.now kind.Context result }
{
    first_record(
        image,
        RecordKind::Context,
        |octets| is_named_by(octets, name),
    )
}

pub fn context_by_sid(image: &AcceptedImage, sid: &[u8]) -> Option<usize>
    ensures result_value { context_at image.now result ≡ context_by_sid (table_from image.now) sid.now }
    ensures lies_in { LiesIn image.now kind.Context result }
{
    first_record(image, RecordKind::Context, |octets| holds_sid(octets, sid))
}

pub fn default_context(image: &AcceptedImage) -> Option<usize>
    ensures result_value { context_at image.now result ≡ default_context_lem (table_from image.now) }
    ensures lies_in { LiesIn image.now kind.Context result }
{
    context_by_number(
        image,
        server::default_context(server::server_of(image.octets())),
    )
}

pub fn account_by_name(image: &AcceptedImage, context: ContextNumber, name: &[u8]) -> Option<usize>
    ensures result_value { account_at image.now result ≡ account_by_name (table_from image.now) context name.now }
    ensures lies_in { LiesIn image.now kind.Account result }
{
    first_record(
        image,
        RecordKind::Account,
        |octets| is_account(octets, context, name),
    )
}

pub fn site_by_number(image: &AcceptedImage, number: SiteNumber) -> Option<usize>
    ensures result_value { site_at image.now result ≡ site_by_number (table_from image.now) number }
    ensures lies_in { LiesIn image.now kind.Site result }
{
    first_record(
        image,
        RecordKind::Site,
        |octets| is_site_numbered(octets, number),
    )
}

// The site that is referred to, if any.
pub fn site_if_any(image: &AcceptedImage, reference: Option<SiteNumber>) -> Option<usize>
    ensures result_value { site_at image.now result ≡ site_if_any (table_from image.now) reference }
    ensures lies_in { LiesIn image.now kind.Site result }
{
    site_by_number(image, reference?)
}

// The subnet that decides for a caller's address.
pub fn subnet_for(image: &AcceptedImage, caller: Caller) -> Option<usize>
    ensures result_value { subnet_at image.now result ≡ subnet_for (table_from image.now) caller }
    ensures lies_in { LiesIn image.now kind.Subnet result }
{
    nearest_subnet(image, caller_number(caller))
}

// The site of the subnet that decides: none where there is no such subnet, or where it has none.
fn site_by_subnet(image: &AcceptedImage, caller: Caller) -> Option<usize>
    ensures result_value { site_at image.now result ≡ site_of_subnet (table_from image.now) (subnet_for (table_from image.now) caller) }
    ensures lies_in { LiesIn image.now kind.Site result }
{
    let offset = subnet_for(image, caller)?;
    site_if_any(
        image,
        subnet::site(part(image.octets(), offset, subnet::FORMAT.width)),
    )
}

// The client's site: the only one, or that of the subnet that decides. Site numbers are unique, so another number is another site.
pub fn client_site(image: &AcceptedImage, caller: Caller) -> Option<usize>
    ensures result_value { site_at image.now result ≡ client_site_lem (table_from image.now) caller }
    ensures lies_in { LiesIn image.now kind.Site result }
{
    let first = first_record(image, RecordKind::Site, |_| true)?;
    let number = site::number(part(image.octets(), first, site::FORMAT.width));
    match first_record(
        image,
        RecordKind::Site,
        |octets| !is_site_numbered(octets, number),
    ) {
        Some(_) => site_by_subnet(image, caller),
        None => Some(first),
    }
}
