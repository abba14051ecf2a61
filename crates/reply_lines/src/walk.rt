// `walk` lines: document 01's walk over a reply's octets, from an offset. It knows no limit but the octets.
ghost use Rattle.std.specs.Prelude.{length, IfSome};
ghost use Rattle.reply_lines.specs.Internal.Walk.{StepWithin};

use console::hex::say_hex;
use line_words::answer::{say_numbers, say_unknown};
use line_words::word::{number_of, octets_of};
use octets::part::part;
use reader_names::look::{Look, look_at};
use std::alloc::Global;
use std::io;
use std::io::Write;

// What the walk does at an offset it visits.
#[derive(Clone, Copy)]
enum WalkStep {
    Ends,
    Label(usize),
    Pointer(usize),
}

// The step at an offset, in a run that starts at `run`.
fn walk_step(reply: &[u8], run: usize, at: usize) -> Option<WalkStep>
    ensures { IfSome result (StepWithin (length reply.now) run at) }
{
    match look_at(reply, at) {
        Look::End => Some(WalkStep::Ends),
        Look::Label(len) if len < reply.len().saturating_sub(at) => Some(WalkStep::Label(len)),
        Look::Pointer(aim) if aim < run => Some(WalkStep::Pointer(aim)),
        _ => None,
    }
}

// Walks from an offset, and shows each label on the way: how many pointers the name has, if the walk finds one. The sum may wrap, so that
// no bound has to be proved; no line is so long.
fn walk_from<F: FnMut(&[u8]) -> io::Result<()>>(
    reply: &[u8],
    start: usize,
    mut show: F,
) -> io::Result<Option<u64>>
    requires { F.IsAlwaysCallable show }
{
    let mut run = start;
    let mut at = start;
    let mut pointers: u64 = 0;
    // A step goes on by a label's length, or back to where a pointer aims: no `for`.
    while let Some(step) = walk_step(reply, run, at) {
        match step {
            WalkStep::Ends => return Ok(Some(pointers)),
            WalkStep::Label(len) => {
                show(part(reply, at + 1, len))?;
                at = at + 1 + len;
            }
            WalkStep::Pointer(aim) => {
                run = aim;
                at = aim;
                pointers = pointers.wrapping_add(1);
            }
        }
    }
    Ok(None)
}

// An answer has the count of the labels before them, so the walk is done once to count and once to show: that takes no memory.
fn say_walk<W: Write>(to: &mut W, reply: &[u8], start: usize) -> io::Result<()> {
    let mut labels: u64 = 0;
    let found = walk_from(reply, start, |_| {
        labels = labels.wrapping_add(1);
        Ok(())
    })?;
    let Some(pointers) = found else {
        return write!(to, "walk none");
    };
    say_numbers(to, "walk", &[pointers, labels])?;
    walk_from(reply, start, |label| {
        write!(to, " ")?;
        say_hex(to, label)
    })?;
    Ok(())
}

pub fn answer_walk<W: Write>(to: &mut W, alloc: Global, fields: &[&str]) -> io::Result<()> {
    let [start, reply] = fields else {
        return say_unknown(to);
    };
    let (Some(start), Some(reply)) = (number_of(start), octets_of(alloc, reply)?) else {
        return say_unknown(to);
    };
    say_walk(to, &reply, start as usize)
}
