// Every number that a record refers to exists.
ghost use Rattle.std.specs.Prelude.{◌≡◌, length};
ghost use Rattle.octets.specs.Lists.{all};
ghost use Rattle.table.specs.Block.{block_size, blocks_of, body_size};
ghost use Rattle.table.specs.Format.{records_in};
ghost use Rattle.table.specs.Subnet.{subnet_format};
ghost use Rattle.table_refer.specs.Internal.Refer.{has_number, in_contexts, is_marked_or_none, is_other_or_none, site_refers, site_refers_at, subnet_refers, subnets_refer};

use crate::mark::Marks;
use table::block::{BLOCK_SIZE, body_of, kind_of};
use table::record::{RecordKind, record_at};
use table::{ContextNumber, SiteNumber, account, context, site, subnet};

// Whether one of the contexts has a number. There are at most 16, so none is marked.
pub fn has_context(image: &[u8], contexts: &[u16], number: ContextNumber) -> bool
    ensures { result ≡ has_number image.now contexts.now number }
{
    contexts.iter().any(|offset| context::number(record_at(image, RecordKind::Context, *offset))
        == number)
}

// Whether each account's context is one of these.
pub fn are_in_contexts(image: &[u8], accounts: &[u16], contexts: &[u16]) -> bool
    ensures { result ≡ all (in_contexts image.now contexts.now) accounts.now }
{
    accounts.iter().all(|offset| {
        let record = record_at(image, RecordKind::Account, *offset);
        has_context(image, contexts, account::context(record))
    })
}

// Whether a site that is referred to exists, where one is.
fn is_marked_or_none(marks: &Marks, reference: Option<SiteNumber>) -> bool
    ensures { result ≡ is_marked_or_none marks.now reference }
{
    match reference {
        Some(number) => marks.is_marked(number),
        None => true,
    }
}

// A site's next closest one, where there is one, exists and is another.
fn site_refers(marks: &Marks, octets: &[u8]) -> bool
    ensures { result ≡ site_refers marks.now octets.now }
{
    let next = site::next(octets);
    is_marked_or_none(marks, next) & (next != Some(site::number(octets)))
}

// Whether each site refers rightly.
pub fn all_sites_refer(image: &[u8], sites: &[u16], marks: &Marks) -> bool
    ensures { result ≡ all (site_refers_at marks.now image.now) sites.now }
{
    sites.iter().all(|offset| site_refers(marks, record_at(image, RecordKind::Site, *offset)))
}

// Whether the site of each subnet of a body exists, where it has one. An unused record has none, so that no other test is needed.
fn all_records_refer(body: &[u8], marks: &Marks) -> bool
    requires { length body.now ≡ body_size }
    ensures { result ≡ all (subnet_refers marks.now) (records_in subnet_format body.now) }
{
    body.chunks_exact(subnet::FORMAT.width)
        .all(|record| is_marked_or_none(marks, subnet::site(record)))
}

// The same of a block, if it holds subnets.
fn subnets_refer(block: &[u8], marks: &Marks) -> bool
    requires { length block.now ≡ block_size }
    ensures { result ≡ subnets_refer marks.now block.now }
{
    (kind_of(block) != subnet::FORMAT.kind) || all_records_refer(body_of(block), marks)
}

// The same of every block. Subnets are held to the marks where they stand: their offsets are not collected.
pub fn all_subnets_refer(image: &[u8], marks: &Marks) -> bool
    ensures { result ≡ all (subnets_refer marks.now) (blocks_of image.now) }
{
    image
        .chunks_exact(BLOCK_SIZE)
        .all(|block| subnets_refer(block, marks))
}
