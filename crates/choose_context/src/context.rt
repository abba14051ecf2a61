// Document 01, "Answer numbers" 11 to 17: the context used is the GUID's, else the DNS name's, else the default. Each lookup is made once.
ghost use Rattle.std.specs.Prelude.{◌≡◌, ◌+◌, ◌≤◌, length};
ghost use Rattle.octets.specs.Lists.{cut, holds};
ghost use Rattle.filter.specs.Request.{octets_of};
ghost use Rattle.filter_read.specs.Internal.RawPing.{ping_at};
ghost use Rattle.table.specs.declared.record.RecordKind.TheVariants as kind;
ghost use Rattle.table.specs.Context.{context_of, context_format};
ghost use Rattle.table.specs.Table.{table_from};
ghost use Rattle.table_find.specs.Internal.Found.{LiesIn, context_at};
ghost use Rattle.choose.specs.Judge.{context_in};
ghost use Rattle.choose.specs.Choose.{names_application};
ghost use Rattle.choose_context.specs.Internal.Used.{asked_as, AskedIn, used_as, UsedIn, guid_asked, dns_name_asked, preferred, sid_as, sid_judged};

use answers::Refusal;
use filter_read::ping::RawPing;
use name_rules::name_rule::is_sid;
use octets::part::{Stretch, part};
use octets::size::GUID_SIZE;
use table::context;
use table_find::context::holds_sid;
use table_lookup::lookup::{context_by_dns_name, context_by_guid, context_by_sid, default_context};
use table_whole::image::AcceptedImage;

// The offset of the record of the context used, and whether DnsDomain names an application context.
#[derive(Clone, Copy)]
pub struct ContextUsed {
    pub context: usize,
    pub application: bool,
}

// 11 and 12: the offset of the record that a clause asks for, if it is there. A GUID of zeros is a GUID, and a clause that is empty is present.
fn guid_asked(
    image: &AcceptedImage,
    source: &[u8],
    clause: Option<Stretch>,
) -> Result<Option<usize>, Refusal>
    ensures result_value { asked_as image.now result ≡ guid_asked (table_from image.now) (octets_of source.now clause) }
    ensures asked_in { AskedIn image.now result }
{
    let Some(clause) = clause else {
        return Ok(None);
    };
    let guid = clause.of(source);
    if guid.len() != GUID_SIZE {
        return Err(Refusal::GuidLength);
    }
    let context = context_by_guid(image, guid).ok_or(Refusal::GuidNotHeld)?;
    Ok(Some(context))
}

// 13 and 14.
fn dns_name_asked(
    image: &AcceptedImage,
    source: &[u8],
    clause: Option<Stretch>,
) -> Result<Option<usize>, Refusal>
    ensures result_value { asked_as image.now result ≡ dns_name_asked (table_from image.now) (octets_of source.now clause) }
    ensures asked_in { AskedIn image.now result }
{
    let Some(clause) = clause else {
        return Ok(None);
    };
    let name = clause.of(source);
    if name.is_empty() {
        return Err(Refusal::DnsNameEmpty);
    }
    let context = context_by_dns_name(image, name).ok_or(Refusal::DnsNameNotHeld)?;
    Ok(Some(context))
}

// The context used, from those that the two clauses ask for.
fn preferred_of(image: &AcceptedImage, guid: Option<usize>, name: Option<usize>) -> Option<usize>
    requires { LiesIn image.now kind.Context guid × LiesIn image.now kind.Context name }
    ensures result_value { context_at image.now result ≡ preferred (table_from image.now) (context_at image.now guid) (context_at image.now name) }
    ensures lies_in { LiesIn image.now kind.Context result }
{
    match guid.or(name) {
        None => default_context(image),
        found => found,
    }
}

// Whether what DnsDomain asks for is an application context.
fn is_application(image: &[u8], name: Option<usize>) -> bool
    ensures { result ≡ holds (λ c. c.application) (context_at image.now name) }
{
    match name {
        Some(offset) => context::is_application(part(image, offset, context::FORMAT.width)),
        None => false,
    }
}

// 15 to 17, for the context whose record is at an offset.
fn judge_sid(
    image: &AcceptedImage,
    source: &[u8],
    clause: Option<Stretch>,
    context: usize,
) -> Result<(), Refusal>
    ensures { let used = context_of (cut image.now context context_format.width) in sid_as used result ≡ sid_judged (table_from image.now) (octets_of source.now clause) used }
{
    let Some(clause) = clause else {
        return Ok(());
    };
    let sid = clause.of(source);
    if !is_sid(sid) {
        return Err(Refusal::SidShape);
    }
    context_by_sid(image, sid).ok_or(Refusal::SidNotHeld)?;
    if !holds_sid(part(image.octets(), context, context::FORMAT.width), sid) {
        return Err(Refusal::SidOfAnother);
    }
    Ok(())
}

// The context used, with 11 to 17 judged in this order.
pub fn context_used(
    image: &AcceptedImage,
    source: &[u8],
    ping: RawPing,
) -> Result<ContextUsed, Refusal>
    ensures result_value { used_as image.now result ≡ context_in (table_from image.now) (ping_at source.now ping) }
    ensures used_in { UsedIn image.now (names_application (table_from image.now) (ping_at source.now ping)) result }
{
    let guid = guid_asked(image, source, ping.domain_guid)?;
    let name = dns_name_asked(image, source, ping.dns_domain)?;
    let application = is_application(image.octets(), name);
    let context = preferred_of(image, guid, name).ok_or(Refusal::TableWhole)?;
    judge_sid(image, source, ping.domain_sid, context)?;
    Ok(ContextUsed {
        context,
        application,
    })
}
