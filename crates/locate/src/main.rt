// locate TABLE CLIENT CLAUSE=VALUE...: answers a ping of these clauses from a table image, and shows the answer.
// locate TABLE CLIENT --filter HEX: the same with the octets of a filter.
// locate TABLE CLIENT --mailslot WORD=VALUE...: the same with a mailslot message of these words.
// locate TABLE CLIENT --mailslot HEX: the same with the octets of a mailslot message.
#![tactic(auto)]

mod asked;
mod filter_asked;
mod message_asked;
mod message_shown;
mod show;

use crate::asked::{ASKED_SIZE, is_asked};
use crate::filter_asked::filter_asked;
use crate::message_asked::message_asked;
use crate::show::{show_filter, show_message};
use arguments::fault::{Fault, Shown};
use arguments::file::{IMAGE_SIZE, read_table};
use arguments::word::take_word;
use std::env::Env;
use std::fs::Files;
use std::io;
use std::io::Write;
use std::net::Ipv4Addr;
use table::Caller;

const CLIENT: usize = 2;

fn client_asked<E: Env>(env: &E) -> Result<Caller, Fault> {
    let mut room = [0; 64];
    let text = take_word(env, CLIENT, "CLIENT", &mut room)?;
    match Ipv4Addr::parse_ascii(text) {
        Ok(client) => Ok(Caller {
            address: client.octets(),
        }),
        Err(_) => Err(Fault::Of("CLIENT is no IPv4 address", Shown::of(text))),
    }
}

// What the arguments ask is answered.
fn answer_asked<E: Env + Files, W: Write>(env: &E, to: &mut W) -> Result<(), Fault> {
    let mut image = [0; IMAGE_SIZE];
    let image = read_table(env, &mut image)?;
    let caller = client_asked(env)?;
    let mut asked = [0; ASKED_SIZE];
    if is_asked(env, b"--mailslot") {
        let message = message_asked(env, &mut asked)?;
        show_message(to, image, caller, message)?;
    } else {
        let filter = filter_asked(env, &mut asked)?;
        show_filter(to, image, caller, filter)?;
    }
    Ok(())
}

fn main(rt: HostRuntime) -> io::Result<()> {
    match answer_asked(&rt, &mut rt.stdout()) {
        Ok(()) => Ok(()),
        Err(fault) => fault.tell(
            &mut rt.stderr(),
            "example: locate data/base.table 10.1.2.3 DnsDomain=corp.example NtVer=6 User=ann AAC=0x10\n",
        ),
    }
}
