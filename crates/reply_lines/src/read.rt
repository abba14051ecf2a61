// `read` lines: a received reply is read in a form, with version bits.
use answers::{Form, number_in};
use console::hex::say_hex;
use line_words::answer::{say_numbers, say_octets, say_unknown};
use line_words::word::{bits_of, octets_of};
use octets::part::{Stretch, part};
use reader_forms::reading::{ExFields, Fields, Nt40Fields, ResponseFields};
use reader_names::NameAt;
use reader_reply::read::read_reply;
use reader_text::text::name_text;
use std::alloc::Global;
use std::io;
use std::io::Write;

// A text of a reply as a word.
fn say_reply_text<W: Write>(to: &mut W, octets: &[u8]) -> io::Result<()> {
    write!(to, " {}", "=")?;
    say_hex(to, octets)
}

// A name of a reply as a word: its text, and how many pointers it has.
fn say_name<W: Write>(to: &mut W, reply: &[u8], at: NameAt) -> io::Result<()> {
    let text = name_text(reply, at.start);
    say_reply_text(to, part(&text.octets, 0, text.len.unwrap_or(0)))?;
    write!(to, "/{}", at.pointers)
}

fn say_names<W: Write>(to: &mut W, reply: &[u8], names: &[NameAt]) -> io::Result<()> {
    for at in names {
        say_name(to, reply, *at)?;
    }
    Ok(())
}

fn say_nt40<W: Write>(to: &mut W, reply: &[u8], fields: &Nt40Fields) -> io::Result<()> {
    write!(to, " {}", fields.opcode)?;
    say_reply_text(to, fields.server.of(reply))?;
    say_reply_text(to, fields.user.of(reply))?;
    say_reply_text(to, fields.domain.of(reply))?;
    write!(to, " {}", fields.version)
}

fn say_response<W: Write>(to: &mut W, reply: &[u8], fields: &ResponseFields) -> io::Result<()> {
    write!(to, " {}", fields.opcode)?;
    say_reply_text(to, fields.server.of(reply))?;
    say_reply_text(to, fields.user.of(reply))?;
    say_reply_text(to, fields.domain.of(reply))?;
    say_octets(to, fields.guid.of(reply))?;
    say_names(to, reply, &[fields.forest, fields.context, fields.host])?;
    say_octets(to, fields.ipv4.of(reply))?;
    write!(to, " {:08x} {}", fields.flags, fields.version)
}

// What is absent is `.`.
fn say_absent<W: Write>(to: &mut W) -> io::Result<()> {
    write!(to, " {}", ".")
}

fn say_address<W: Write>(to: &mut W, reply: &[u8], address: Option<Stretch>) -> io::Result<()> {
    match address {
        None => say_absent(to),
        Some(ipv4) => say_octets(to, ipv4.of(reply)),
    }
}

fn say_next_site<W: Write>(to: &mut W, reply: &[u8], next_site: Option<NameAt>) -> io::Result<()> {
    match next_site {
        None => say_absent(to),
        Some(at) => say_name(to, reply, at),
    }
}

fn say_ex<W: Write>(to: &mut W, reply: &[u8], fields: &ExFields) -> io::Result<()> {
    write!(to, " {} {:08x}", fields.opcode, fields.flags)?;
    say_octets(to, fields.guid.of(reply))?;
    let names = [
        fields.forest,
        fields.context,
        fields.host,
        fields.context_netbios,
        fields.server_netbios,
        fields.user,
        fields.own_site,
        fields.client_site,
    ];
    say_names(to, reply, &names)?;
    say_address(to, reply, fields.ipv4)?;
    say_next_site(to, reply, fields.next_site)?;
    write!(to, " {}", fields.version)
}

// A line has the fields of each form in an order of its own.
fn say_fields<W: Write>(to: &mut W, reply: &[u8], fields: &Fields) -> io::Result<()> {
    match fields {
        Fields::Nt40(nt40) => say_nt40(to, reply, nt40),
        Fields::Response(response) => say_response(to, reply, response),
        Fields::Ex(ex) => say_ex(to, reply, ex),
    }
}

fn form_of(word: &str) -> Option<Form> {
    match word {
        "nt40" => Some(Form::Nt40),
        "response" => Some(Form::Response),
        "ex" => Some(Form::Ex),
        _ => None,
    }
}

// A refusal has no length, and no fields.
fn say_reading<W: Write>(to: &mut W, reply: &[u8], form: Form, version: u32) -> io::Result<()> {
    let reading = read_reply(reply, form, version);
    let number = number_in(&reading);
    match reading {
        Ok(reading) => {
            say_numbers(to, "read", &[number as u64, reading.length as u64])?;
            say_fields(to, reply, &reading.fields)
        }
        Err(_) => say_numbers(to, "read", &[number as u64, 0]),
    }
}

pub fn answer_read<W: Write>(to: &mut W, alloc: Global, fields: &[&str]) -> io::Result<()> {
    let [form, version, reply] = fields else {
        return say_unknown(to);
    };
    let (Some(form), Some(version), Some(reply)) = (
        form_of(form),
        bits_of(version),
        octets_of(alloc, reply)?,
    ) else {
        return say_unknown(to);
    };
    say_reading(to, &reply, form, version)
}
