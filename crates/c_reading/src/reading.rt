// A reading as the members of `struct locator_reading`: what its form lacks is not present.
ghost use Rattle.std.specs.Prelude.{◌≡◌, ◌≤◌};
ghost use Rattle.c_reading.specs.Reading.{reading_members};
ghost use Rattle.c_reading.specs.Internal.Put.{number_put, text_put, name_put, texts_put, dns_names_put, other_names_put, address_put, next_site_put};

use answers::Refusal;
use octets::part::Stretch;
use reader_forms::reading::{ExFields, Fields, Nt40Fields, Reading, ResponseFields};
use reader_names::NameAt;

pub const READING_MEMBERS: usize = 54;

// Where members stand.
pub const LENGTH: usize = 0;

pub const OPCODE: usize = 1;

pub const VERSION: usize = 2;

pub const FLAGS: usize = 3;

pub const GUID: usize = 5;

pub const ADDRESS: usize = 7;

pub const SERVER: usize = 9;

pub const USER: usize = 12;

pub const DOMAIN: usize = 15;

pub const NAMES: usize = 18;

pub const NEXT_SITE: usize = 50;

// A number of four octets as a member.
fn member_of(number: u32) -> usize
    ensures { result ≡ number }
{
    number as usize
}

// A number that is present.
fn put_number(members: &mut [usize; READING_MEMBERS], at: usize, number: usize)
    requires { at ≤ 52 }
    ensures { members.new ≡ number_put members.old at number }
{
    members[at] = 1;
    members[at + 1] = number;
}

// A text that is present.
fn put_text(members: &mut [usize; READING_MEMBERS], at: usize, text: Stretch)
    requires { at ≤ 51 }
    ensures { members.new ≡ text_put members.old at text }
{
    members[at] = 1;
    members[at + 1] = text.start;
    members[at + 2] = text.len;
}

// A name that is present.
fn put_name(members: &mut [usize; READING_MEMBERS], at: usize, name: NameAt)
    requires { at ≤ 50 }
    ensures { members.new ≡ name_put members.old at name }
{
    members[at] = 1;
    members[at + 1] = name.start;
    members[at + 2] = name.len;
    members[at + 3] = name.pointers;
}

// The texts of the two older forms.
fn put_texts(
    members: &mut [usize; READING_MEMBERS],
    server: Stretch,
    user: Stretch,
    domain: Stretch,
)
    ensures { members.new ≡ texts_put members.old server user domain }
{
    put_text(members, SERVER, server);
    put_text(members, USER, user);
    put_text(members, DOMAIN, domain);
}

// The names at places 0 to 2, of RESPONSE and EX.
fn put_dns_names(
    members: &mut [usize; READING_MEMBERS],
    forest: NameAt,
    context: NameAt,
    host: NameAt,
)
    ensures { members.new ≡ dns_names_put members.old forest context host }
{
    put_name(members, NAMES, forest);
    put_name(members, NAMES + 4, context);
    put_name(members, NAMES + 8, host);
}

// The names at places 3 to 7, of EX.
fn put_other_names(members: &mut [usize; READING_MEMBERS], fields: ExFields)
    ensures { members.new ≡ other_names_put members.old fields }
{
    put_name(members, NAMES + 12, fields.context_netbios);
    put_name(members, NAMES + 16, fields.server_netbios);
    put_name(members, NAMES + 20, fields.user);
    put_name(members, NAMES + 24, fields.own_site);
    put_name(members, NAMES + 28, fields.client_site);
}

// The address and name 8 of an EX, where they are present.
fn put_address(members: &mut [usize; READING_MEMBERS], address: Option<Stretch>)
    ensures { members.new ≡ address_put members.old address }
{
    if let Some(stretch) = address {
        put_number(members, ADDRESS, stretch.start);
    }
}

fn put_next_site(members: &mut [usize; READING_MEMBERS], next_site: Option<NameAt>)
    ensures { members.new ≡ next_site_put members.old next_site }
{
    if let Some(name) = next_site {
        put_name(members, NEXT_SITE, name);
    }
}

fn nt40_members(length: usize, fields: Nt40Fields) -> [usize; READING_MEMBERS]
    ensures { result ≡ reading_members (Ok (record { length = length; fields = Fields.Nt40 fields })) }
{
    let mut members = [0; READING_MEMBERS];
    members[LENGTH] = length;
    members[OPCODE] = fields.opcode as usize;
    members[VERSION] = member_of(fields.version);
    put_texts(&mut members, fields.server, fields.user, fields.domain);
    members
}

fn response_members(length: usize, fields: ResponseFields) -> [usize; READING_MEMBERS]
    ensures { result ≡ reading_members (Ok (record { length = length; fields = Fields.Response fields })) }
{
    let mut members = [0; READING_MEMBERS];
    members[LENGTH] = length;
    members[OPCODE] = fields.opcode as usize;
    members[VERSION] = member_of(fields.version);
    put_number(&mut members, FLAGS, member_of(fields.flags));
    put_number(&mut members, GUID, fields.guid.start);
    put_number(&mut members, ADDRESS, fields.ipv4.start);
    put_texts(&mut members, fields.server, fields.user, fields.domain);
    put_dns_names(&mut members, fields.forest, fields.context, fields.host);
    members
}

fn ex_members(length: usize, fields: ExFields) -> [usize; READING_MEMBERS]
    ensures { result ≡ reading_members (Ok (record { length = length; fields = Fields.Ex fields })) }
{
    let mut members = [0; READING_MEMBERS];
    members[LENGTH] = length;
    members[OPCODE] = fields.opcode as usize;
    members[VERSION] = member_of(fields.version);
    put_number(&mut members, FLAGS, member_of(fields.flags));
    put_number(&mut members, GUID, fields.guid.start);
    put_dns_names(&mut members, fields.forest, fields.context, fields.host);
    put_other_names(&mut members, fields);
    put_address(&mut members, fields.ipv4);
    put_next_site(&mut members, fields.next_site);
    members
}

// With a refusal the length is 0, and no field is present.
pub fn reading_members(reading: Result<Reading, Refusal>) -> [usize; READING_MEMBERS]
    ensures { result ≡ reading_members reading }
{
    let Ok(read) = reading else {
        return [0; READING_MEMBERS];
    };
    match read.fields {
        Fields::Nt40(nt40) => nt40_members(read.length, nt40),
        Fields::Response(response) => response_members(read.length, response),
        Fields::Ex(ex) => ex_members(read.length, ex),
    }
}
