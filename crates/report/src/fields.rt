// The fields of a reply that was read, a line each.
use crate::bits::{say_flags, say_opcode};
use crate::text::{Quoted, QuotedUtf16};
use console::hex::Hex;
use octets::part::{Stretch, part};
use reader_forms::reading::{ExFields, Fields, Nt40Fields, ResponseFields};
use reader_names::NameAt;
use reader_text::text::name_text;
use std::io;
use std::io::Write;

pub fn say_version<W: Write>(to: &mut W, version: u32) -> io::Result<()> {
    writeln!(to, "version   {version:08x}")
}

pub fn say_text<W: Write>(to: &mut W, title: &str, reply: &[u8], text: Stretch) -> io::Result<()> {
    writeln!(to, "{title}{}", QuotedUtf16(text.of(reply)))
}

fn say_guid<W: Write>(to: &mut W, reply: &[u8], guid: Stretch) -> io::Result<()> {
    writeln!(to, "guid      {}", Hex(guid.of(reply)))
}

fn say_ipv4<W: Write>(to: &mut W, reply: &[u8], ipv4: Stretch) -> io::Result<()> {
    write!(to, "address   ")?;
    if let [a, b, c, d, ..] = ipv4.of(reply) {
        write!(to, "{a}.{b}.{c}.{d}")?;
    }
    writeln!(to)
}

fn say_name<W: Write>(to: &mut W, title: &str, reply: &[u8], name: NameAt) -> io::Result<()> {
    let text = name_text(reply, name.start);
    write!(to, "{title}")?;
    match text.len {
        Ok(len) => write!(to, "{}", Quoted(part(&text.octets, 0, len)))?,
        Err(_) => write!(to, "broken")?,
    }
    let pointers = name.pointers;
    write!(to, ", {pointers}")?;
    if pointers == 1 {
        writeln!(to, " pointer")
    } else {
        writeln!(to, " pointers")
    }
}

// The texts of the two older forms.
fn say_texts<W: Write>(
    to: &mut W,
    reply: &[u8],
    server: Stretch,
    user: Stretch,
    domain: Stretch,
) -> io::Result<()> {
    say_text(to, "server    ", reply, server)?;
    say_text(to, "user      ", reply, user)?;
    say_text(to, "domain    ", reply, domain)
}

// The names at places 0 to 2, of RESPONSE and EX alike.
fn say_first_names<W: Write>(
    to: &mut W,
    reply: &[u8],
    forest: NameAt,
    context: NameAt,
    host: NameAt,
) -> io::Result<()> {
    say_name(to, "name 0    forest             ", reply, forest)?;
    say_name(to, "name 1    context            ", reply, context)?;
    say_name(to, "name 2    host               ", reply, host)
}

fn say_nt40<W: Write>(to: &mut W, reply: &[u8], fields: &Nt40Fields) -> io::Result<()> {
    say_opcode(to, fields.opcode)?;
    say_texts(to, reply, fields.server, fields.user, fields.domain)?;
    say_version(to, fields.version)
}

fn say_response<W: Write>(to: &mut W, reply: &[u8], fields: &ResponseFields) -> io::Result<()> {
    say_opcode(to, fields.opcode)?;
    say_flags(to, fields.flags)?;
    say_texts(to, reply, fields.server, fields.user, fields.domain)?;
    say_guid(to, reply, fields.guid)?;
    say_first_names(to, reply, fields.forest, fields.context, fields.host)?;
    say_ipv4(to, reply, fields.ipv4)?;
    say_version(to, fields.version)
}

fn say_address<W: Write>(to: &mut W, reply: &[u8], address: Option<Stretch>) -> io::Result<()> {
    match address {
        None => writeln!(to, "address   none"),
        Some(ipv4) => say_ipv4(to, reply, ipv4),
    }
}

fn say_next_site<W: Write>(to: &mut W, reply: &[u8], next_site: Option<NameAt>) -> io::Result<()> {
    match next_site {
        None => writeln!(to, "name 8    next closest site  none"),
        Some(name) => say_name(to, "name 8    next closest site  ", reply, name),
    }
}

// The names at places 0 to 7.
fn say_ex_names<W: Write>(to: &mut W, reply: &[u8], fields: &ExFields) -> io::Result<()> {
    say_first_names(to, reply, fields.forest, fields.context, fields.host)?;
    say_name(
        to,
        "name 3    context NetBIOS    ",
        reply,
        fields.context_netbios,
    )?;
    say_name(
        to,
        "name 4    server NetBIOS     ",
        reply,
        fields.server_netbios,
    )?;
    say_name(to, "name 5    user               ", reply, fields.user)?;
    say_name(to, "name 6    own site           ", reply, fields.own_site)?;
    say_name(
        to,
        "name 7    client site        ",
        reply,
        fields.client_site,
    )
}

fn say_ex<W: Write>(to: &mut W, reply: &[u8], fields: &ExFields) -> io::Result<()> {
    say_opcode(to, fields.opcode)?;
    say_flags(to, fields.flags)?;
    say_guid(to, reply, fields.guid)?;
    say_ex_names(to, reply, fields)?;
    say_address(to, reply, fields.ipv4)?;
    say_next_site(to, reply, fields.next_site)?;
    say_version(to, fields.version)
}

pub fn say_fields<W: Write>(to: &mut W, reply: &[u8], fields: &Fields) -> io::Result<()> {
    match fields {
        Fields::Nt40(nt40) => say_nt40(to, reply, nt40),
        Fields::Response(response) => say_response(to, reply, response),
        Fields::Ex(ex) => say_ex(to, reply, ex),
    }
}
