// What is asked of a site, by its record's octets.
ghost use Rattle.std.specs.Prelude.{◌≡◌};
ghost use Rattle.table.specs.Countings.{same_site_lem};
ghost use Rattle.table.specs.Site.{site_of};

use table::{SiteNumber, site};

pub fn is_site_numbered(octets: &[u8], asked: SiteNumber) -> bool
    ensures { result ≡ same_site_lem (site_of octets.now).number asked }
{
    site::number(octets) == asked
}
