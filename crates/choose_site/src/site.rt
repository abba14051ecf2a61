// The client's site and the one next closest to it.
ghost use Rattle.std.specs.Prelude.{◌≡◌, option_map};
ghost use Rattle.octets.specs.Lists.{holds};
ghost use Rattle.table.specs.declared.record.RecordKind.TheVariants as kind;
ghost use Rattle.table.specs.Countings.{same_site_lem};
ghost use Rattle.table.specs.Table.{table_from};
ghost use Rattle.table_find.specs.Internal.Found.{LiesIn, site_at};
ghost use Rattle.choose.specs.Choose.{next_site_lem};

use answers::wire::NETLOGON_NT_VERSION_WITH_CLOSEST_SITE;
use octets::number::has_bits;
use octets::part::part;
use table::bits::ROLE_LEVEL_2008;
use table::{SiteNumber, server, site};
use table_find::site::is_site_numbered;
use table_lookup::lookup::site_if_any;
use table_whole::image::AcceptedImage;

// Whether a site that was looked up has a number.
pub fn is_numbered(image: &[u8], found: Option<usize>, number: SiteNumber) -> bool
    ensures { result ≡ holds (λ s. same_site_lem s.number number) (site_at image.now found) }
{
    match found {
        Some(offset) => is_site_numbered(part(image, offset, site::FORMAT.width), number),
        None => false,
    }
}

// The site next closest to the client's, where it is asked for and the level is there.
pub fn next_site(image: &AcceptedImage, version: u32, client: Option<usize>) -> Option<usize>
    ensures result_value { option_map (λ s. s.name) (site_at image.now result) ≡ next_site_lem (table_from image.now) version (site_at image.now client) }
    ensures lies_in { LiesIn image.now kind.Site result }
{
    let octets = image.octets();
    let roles = server::roles(server::server_of(octets));
    if !(has_bits(version, NETLOGON_NT_VERSION_WITH_CLOSEST_SITE)
        & has_bits(roles, ROLE_LEVEL_2008))
    {
        return None;
    }
    site_if_any(image, site::next(part(octets, client?, site::FORMAT.width)))
}
