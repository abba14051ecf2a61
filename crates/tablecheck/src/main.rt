// tablecheck TABLE: judges a table image, and names the first wrong block where single blocks are judged.
#![tactic(auto)]

mod first;

use crate::first::{BlockRule, first_wrong};
use answers::Refusal;
use arguments::fault::Fault;
use arguments::file::{IMAGE_SIZE, TABLE, read_table};
use arguments::word::has_word;
use report::answer::say_answer;
use std::env::Env;
use std::fs::Files;
use std::io;
use std::io::Write;
use table::block::IMAGE_MOST;
use table_whole::judge::judge;

const ARGUMENTS_END: usize = TABLE + 1;

fn say_first_wrong<W: Write>(to: &mut W, image: &[u8], rule: BlockRule) -> io::Result<()> {
    if IMAGE_MOST < image.len() {
        return Ok(());
    }
    let first = first_wrong(image, rule);
    writeln!(
        to,
        "block     {first} is the first wrong one, counted from 0"
    )
}

fn show_judgement<W: Write>(to: &mut W, image: &[u8]) -> io::Result<()> {
    let judgement = judge(image);
    say_answer(to, &judgement, "accepted")?;
    match judgement {
        Err(Refusal::BlockCheck) => say_first_wrong(to, image, BlockRule::Check),
        Err(Refusal::BlockLayout) => say_first_wrong(to, image, BlockRule::Layout),
        _ => Ok(()),
    }
}

// The table that the arguments name is judged.
fn check_asked<E: Env + Files, W: Write>(env: &E, to: &mut W) -> Result<(), Fault> {
    if has_word(env, ARGUMENTS_END) {
        return Err(Fault::Slip("no argument is taken after TABLE\n"));
    }
    let mut room = [0; IMAGE_SIZE];
    let image = read_table(env, &mut room)?;
    show_judgement(to, image)?;
    Ok(())
}

fn main(rt: HostRuntime) -> io::Result<()> {
    match check_asked(&rt, &mut rt.stdout()) {
        Ok(()) => Ok(()),
        Err(fault) => fault.tell(&mut rt.stderr(), "example: tablecheck data/base.table\n"),
    }
}
