// explain FORM V REPLY: reads a received reply, given in hex digits or as a file, and shows it.
#![tactic(auto)]

ghost use Rattle.std.specs.Prelude.{◌≤◌, IfOk, length};

use answers::Form;
use arguments::fault::{Fault, Shown};
use arguments::file::read_file;
use arguments::number::number_of;
use arguments::word::{has_word, take_word};
use console::hex::{decode, is_hex};
use reader_reply::read::read_reply;
use report::answer::{say_answer, say_form};
use report::reading::say_reading;
use std::env::Env;
use std::fs::Files;
use std::io;
use std::io::Write;

// The arguments by their numbers; the program's own name is 0.
const FORM: usize = 1;

const VERSION: usize = 2;

const REPLY: usize = 3;

const ARGUMENTS_END: usize = 4;

const REPLY_MOST: usize = 65536;

// One octet more than is read, so that a longer file is told from it.
const REPLY_SIZE: usize = REPLY_MOST + 1;

// The longest argument that Linux hands over. What lends so much room is not inlined, so that not every run claims it.
const WORD_SIZE: usize = 131072;

fn form_named(name: &[u8]) -> Option<Form> {
    if name.eq_ignore_ascii_case(b"nt40") {
        Some(Form::Nt40)
    } else if name.eq_ignore_ascii_case(b"response") {
        Some(Form::Response)
    } else if name.eq_ignore_ascii_case(b"ex") {
        Some(Form::Ex)
    } else {
        None
    }
}

fn form_asked<E: Env>(env: &E) -> Result<Form, Fault> {
    let mut room = [0; 64];
    let name = take_word(env, FORM, "FORM", &mut room)?;
    match form_named(name) {
        Some(form) => Ok(form),
        None => Err(Fault::Of("FORM is none of nt40, response, ex", Shown::of(name))),
    }
}

fn version_asked<E: Env>(env: &E) -> Result<u32, Fault> {
    let mut room = [0; 64];
    let text = take_word(env, VERSION, "V", &mut room)?;
    match number_of(text) {
        Some(version) => Ok(version),
        None => Err(Fault::Of("V is no number of 32 bits, as 6 or 0x16", Shown::of(text))),
    }
}

// Digits that stand for octets are the reply; anything else is a file's name. How many octets are put at the front of lent room.
fn reply_in<F: Files>(files: &F, text: &[u8], room: &mut [u8]) -> Result<usize, Fault>
    ensures { IfOk result (λ len. len ≤ length room.new) }
{
    if is_hex(text) & (text.len() <= 2 * REPLY_SIZE) {
        return Ok(decode(text, room));
    }
    match read_file(files, text, room) {
        Ok(len) => Ok(len),
        Err(_) => Err(Fault::Of(
            "REPLY is neither hex digits, two for each octet, nor a file that can be read",
            Shown::of(text),
        )),
    }
}

#[inline(never)]
fn reply_asked<'a, E: Env + Files>(env: &E, room: &'a mut [u8]) -> Result<&'a [u8], Fault> {
    let mut word = [0; WORD_SIZE];
    let text = take_word(env, REPLY, "REPLY", &mut word)?;
    let len = reply_in(env, text, room)?;
    if REPLY_MOST < len {
        return Err(Fault::Slip("REPLY is longer than 65,536 octets\n"));
    }
    Ok(&room[..len])
}

fn show_reply<W: Write>(to: &mut W, reply: &[u8], form: Form, version: u32) -> io::Result<()> {
    let reading = read_reply(reply, form, version);
    say_answer(to, &reading, "accepted")?;
    say_form(to, form)?;
    say_reading(to, reply, &reading)
}

// What the arguments give is read.
fn explain_asked<E: Env + Files, W: Write>(env: &E, to: &mut W) -> Result<(), Fault> {
    if has_word(env, ARGUMENTS_END) {
        return Err(Fault::Slip("no argument is taken after FORM, V and REPLY\n"));
    }
    let form = form_asked(env)?;
    let version = version_asked(env)?;
    let mut room = [0; REPLY_SIZE];
    let reply = reply_asked(env, &mut room)?;
    show_reply(to, reply, form, version)?;
    Ok(())
}

fn main(rt: HostRuntime) -> io::Result<()> {
    match explain_asked(&rt, &mut rt.stdout()) {
        Ok(()) => Ok(()),
        Err(fault) => fault.tell(
            &mut rt.stderr(),
            "example: explain nt40 0 13004400430031000000000043004f0052005000000001000000ffffffff\n",
        ),
    }
}
