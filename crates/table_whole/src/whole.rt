// The table as a whole: contexts with their accounts, sites with what refers to them, then the subnets by themselves.
ghost use Rattle.std.specs.Prelude.{◌≡◌, ◌≤◌, length};
ghost use Rattle.table.specs.Block.{block_size, image_most};
ghost use Rattle.table.specs.Table.{table_from};
ghost use Rattle.table.specs.declared.record.RecordKind.TheVariants as kind;
ghost use Rattle.table_whole.specs.Whole.{subnets_unique, good_whole};
ghost use Rattle.table_whole.specs.Internal.Half.{AllOf, SiteMarks, good_accounts, good_contexts, good_references, good_sites, context_half, site_half};

use table::block::BLOCKS_MOST;
use table::record::RecordKind;
use table::{account, context, server, site, subnet};
use table_records::alike::{Contexts, all_unique};
use table_records::offset::offsets_in;
use table_refer::mark::{Marks, mark_sites};
use table_refer::refer::{all_sites_refer, all_subnets_refer, are_in_contexts, has_context};
use table_unique::unique::{are_accounts_unique, are_networks_unique};

// Of each kind whose offsets are collected, as many records as the most blocks hold; of subnets it is `subnet::MOST`.
const CONTEXTS_MOST: usize = context::FORMAT.count * BLOCKS_MOST;

const ACCOUNTS_MOST: usize = account::FORMAT.count * BLOCKS_MOST;

const SITES_MOST: usize = site::FORMAT.count * BLOCKS_MOST;

// The accounts: each one's context exists, and no two of a context have one name.
fn are_accounts_good(image: &[u8], accounts: &mut [u16], contexts: &[u16]) -> bool
    requires { AllOf kind.Account image.now accounts.old × AllOf kind.Context image.now contexts.now }
    ensures { result ≡ good_accounts (table_from image.now) }
{
    are_in_contexts(image, accounts, contexts) & are_accounts_unique(image, accounts)
}

fn good_accounts_of(image: &[u8], contexts: &[u16]) -> bool
    requires { (length image.now ≤ image_most) × AllOf kind.Context image.now contexts.now }
    ensures { result ≡ good_accounts (table_from image.now) }
{
    let mut room: [u16; ACCOUNTS_MOST] = [0; ACCOUNTS_MOST];
    let accounts = offsets_in(image, RecordKind::Account, &mut room);
    are_accounts_good(image, accounts, contexts)
}

// No two contexts have one number, GUID, SID or DNS name, the default one exists, and their accounts are good.
fn are_contexts_good(image: &[u8], contexts: &[u16]) -> bool
    requires { (block_size ≤ length image.now) × (length image.now ≤ image_most) × AllOf kind.Context image.now contexts.now }
    ensures { result ≡ good_contexts (table_from image.now) }
{
    all_unique(&Contexts { image }, contexts)
        & has_context(
            image,
            contexts,
            server::default_context(server::server_of(image)),
        )
        & good_accounts_of(image, contexts)
}

// 1 to 16 contexts, and what is said of them; no pair is compared where there are more.
fn is_context_half_good(image: &[u8]) -> bool
    requires { (block_size ≤ length image.now) × (length image.now ≤ image_most) }
    ensures { result ≡ context_half (table_from image.now) }
{
    let mut room: [u16; CONTEXTS_MOST] = [0; CONTEXTS_MOST];
    let contexts = offsets_in(image, RecordKind::Context, &mut room);
    let count = contexts.len();
    if count == 0 {
        return false;
    }
    if 16 < count {
        return false;
    }
    are_contexts_good(image, contexts)
}

// The server's own site exists, each next closest one exists and is another, and subnets refer rightly.
fn are_sites_referred(image: &[u8], sites: &[u16], marks: &Marks) -> bool
    requires block_size_in_bounds { (block_size ≤ length image.now) × (length image.now ≤ image_most) }
    requires all_of { AllOf kind.Site image.now sites.now × SiteMarks marks.now (table_from image.now) }
    ensures { result ≡ good_references (table_from image.now) }
{
    marks.is_marked(server::own_site(server::server_of(image)))
        & all_sites_refer(image, sites, marks)
        & all_subnets_refer(image, marks)
}

// No two sites have one number, and what refers to them does so rightly.
fn are_sites_good(image: &[u8], sites: &[u16]) -> bool
    requires { (block_size ≤ length image.now) × (length image.now ≤ image_most) × AllOf kind.Site image.now sites.now }
    ensures { result ≡ good_sites (table_from image.now) }
{
    let mut marks = Marks::new();
    if !mark_sites(image, sites, &mut marks) {
        return false;
    }
    are_sites_referred(image, sites, &marks)
}

fn is_site_half_good(image: &[u8]) -> bool
    requires { (block_size ≤ length image.now) × (length image.now ≤ image_most) }
    ensures { result ≡ site_half (table_from image.now) }
{
    let mut room: [u16; SITES_MOST] = [0; SITES_MOST];
    let sites = offsets_in(image, RecordKind::Site, &mut room);
    let count = sites.len();
    if count == 0 {
        return false;
    }
    are_sites_good(image, sites)
}

// No two subnets have one address and prefix. Called after the halves and not in one of them, so that the arrays do not add up.
fn are_subnets_unique(image: &[u8]) -> bool
    requires { length image.now ≤ image_most }
    ensures { result ≡ subnets_unique (table_from image.now).subnets }
{
    let mut room: [u16; subnet::MOST] = [0; subnet::MOST];
    let subnets = offsets_in(image, RecordKind::Subnet, &mut room);
    are_networks_unique(image, subnets)
}

// Whether the table is good as a whole, for an image of a whole block at least.
pub fn good_whole(image: &[u8]) -> bool
    requires { (block_size ≤ length image.now) × (length image.now ≤ image_most) }
    ensures { result ≡ good_whole (table_from image.now) }
{
    if !is_context_half_good(image) {
        return false;
    }
    if !is_site_half_good(image) {
        return false;
    }
    are_subnets_unique(image)
}
