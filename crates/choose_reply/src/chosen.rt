// The reply to a ping in the context used. The client's site is looked up once.
ghost use Rattle.std.specs.Prelude.{◌≡◌, false, not, ◌+◌, ◌≤◌, length, option_map};
ghost use Rattle.octets.specs.Lists.{cut, holds};
ghost use Rattle.unicode_text.specs.UserName.{is_user_name};
ghost use Rattle.filter_read.specs.Internal.RawPing.{ping_at};
ghost use Rattle.reply.specs.Internal.RawReply.{reply_in};
ghost use Rattle.table.specs.declared.record.RecordKind.TheVariants as kind;
ghost use Rattle.table.specs.Block.{block_size};
ghost use Rattle.table.specs.Context.{context_of, context_format};
ghost use Rattle.table.specs.Countings.{same_site_lem};
ghost use Rattle.table.specs.Table.{table_from};
ghost use Rattle.table_find.specs.Internal.Found.{LiesIn, site_at};
ghost use Rattle.choose.specs.Choose.{is_held_back, is_user_unknown, opcode_of, names_application, reply_for};
ghost use Rattle.choose.specs.Internal.Flags.{flags_by};
ghost use Rattle.choose_reply.specs.Internal.Lends.{LendsEach, texts};

use crate::text::{site_name, text_stretch, user_text};
use answers::Form;
use answers::wire::NETLOGON_NT_VERSION_5EX_WITH_IP;
use choose::answer::{is_held_back, is_user_unknown, opcode_of};
use choose::flags::flags_of;
use choose_site::site::{is_numbered, next_site};
use filter_read::ping::RawPing;
use lent::stretch::{Lender, Stretch};
use octets::number::has_bits;
use octets::size::{GUID_SIZE, IPV4_SIZE};
use reply::raw::{RawReply, SLOTS};
use table::block::{BLOCK_SIZE, BODY, BODY_SIZE};
use table::{Caller, context, forest, server};
use table_lookup::lookup::{client_site, site_by_number};
use table_whole::image::AcceptedImage;

// The bodies of the server's and the forest's blocks, as offsets of the image.
const SERVER_BODY: usize = BODY;

const FOREST_BODY: usize = BLOCK_SIZE + BODY;

fn opcode_for(
    image: &AcceptedImage,
    source: &[u8],
    ping: RawPing,
    context: usize,
    form: Form,
) -> u16
    ensures { result ≡ opcode_of form (is_held_back (table_from image.now).server ping.version) (is_user_unknown (table_from image.now) (context_of (cut image.now context context_format.width)) (ping_at source.now ping)) }
{
    let held_back = is_held_back(server::server_of(image.octets()), ping.version);
    opcode_of(
        form,
        held_back,
        is_user_unknown(image, source, ping, context),
    )
}

fn flags_for(image: &[u8], client: Option<usize>, application: bool, form: Form) -> u32
    requires { block_size ≤ length image.now }
    ensures { result ≡ flags_by form (table_from image.now).server.roles (holds (λ s. same_site_lem s.number (table_from image.now).server.site) (site_at image.now client)) application }
{
    let body = server::server_of(image);
    let same_site = is_numbered(image, client, server::own_site(body));
    flags_of(form, server::roles(body), same_site, application)
}

// The texts, in the order of their slots.
fn slots_for(
    image: &AcceptedImage,
    source: &[u8],
    ping: RawPing,
    context: usize,
    client: Option<usize>,
    next: Option<usize>,
) -> [Stretch; SLOTS]
    requires asked { (context + context_format.width ≤ length image.now) × (holds (λ x. not (is_user_name x)) (ping_at source.now ping).user ≡ false) }
    requires lies_in { LiesIn image.now kind.Site client × LiesIn image.now kind.Site next }
    ensures { LendsEach image.now source.now result (texts (table_from image.now) (ping_at source.now ping) (context_of (cut image.now context context_format.width)) (site_at image.now client) (option_map (λ s. s.name) (site_at image.now next))) }
{
    let octets = image.octets();
    let own = site_by_number(image, server::own_site(server::server_of(octets)));
    [
        text_stretch(octets, FOREST_BODY, BODY_SIZE, forest::NAME),
        text_stretch(octets, context, BODY_SIZE, context::DNS_NAME),
        text_stretch(octets, SERVER_BODY, BODY_SIZE, server::HOST),
        text_stretch(octets, context, BODY_SIZE, context::NETBIOS),
        text_stretch(octets, SERVER_BODY, BODY_SIZE, server::NETBIOS),
        user_text(source, ping.user),
        site_name(octets, own),
        site_name(octets, client),
        site_name(octets, next),
    ]
}

// The reply to a caller's ping, in the context whose record is at an offset; `application` tells whether DnsDomain names an application context.
pub fn reply_for(
    image: &AcceptedImage,
    caller: Caller,
    source: &[u8],
    ping: RawPing,
    context: usize,
    application: bool,
    form: Form,
) -> RawReply
    requires asked { (context + context_format.width ≤ length image.now) × (holds (λ x. not (is_user_name x)) (ping_at source.now ping).user ≡ false) }
    requires application_value { application ≡ names_application (table_from image.now) (ping_at source.now ping) }
    ensures { reply_in image.now source.now result ≡ reply_for (table_from image.now) caller (ping_at source.now ping) (context_of (cut image.now context context_format.width)) form }
{
    let client = client_site(image, caller);
    let next = next_site(image, ping.version, client);
    let opcode = opcode_for(image, source, ping, context, form);
    let flags = flags_for(image.octets(), client, application, form);
    let slots = slots_for(image, source, ping, context, client, next);
    let guid = Stretch {
        lender: Lender::Table,
        start: context + context::GUID,
        len: GUID_SIZE,
    };
    let ipv4 = Stretch {
        lender: Lender::Table,
        start: SERVER_BODY + server::ADDRESS,
        len: IPV4_SIZE,
    };
    RawReply {
        opcode,
        flags,
        guid,
        ipv4,
        slots,
        with_address: has_bits(ping.version, NETLOGON_NT_VERSION_5EX_WITH_IP),
        with_next_site: next.is_some(),
    }
}
