// A name's next step: the walk's rules, with limits on its octets and its pointers.
ghost use Rattle.std.specs.Prelude.{◌≡◌, ◌-◌, ◌≤◌, ◌<◌, length, IfOk};
ghost use Rattle.reader.specs.Name.{cut_after};
ghost use Rattle.reader_names.specs.Internal.Step.{label_step, pointer_step, name_step, StepWithin};

use crate::look::{Look, look_at};
use answers::Refusal;

// The most octets of a name written out, its final zero counted.
pub const WRITTEN_MOST: usize = 255;

const POINTERS_MOST: usize = 16;

// The name ends, a label of so many octets is read, or a pointer to an offset is followed.
#[derive(Clone, Copy)]
pub enum NameStep {
    Ends,
    Label(usize),
    Pointer(usize),
}

// Octets missing are 31, but after a pointer was followed every fault is 33.
fn cut_after(pointers: usize) -> Refusal
    ensures { result ≡ cut_after pointers }
{
    if pointers == 0 {
        return Refusal::ReplyCut;
    }
    Refusal::ReplyText
}

// The limit is judged at the length octet, before the label's octets are asked for.
#[tactic(auto, unfolding(crate::specs::Internal::Step::label_step))]
fn label_step(
    reply: &[u8],
    at: usize,
    len: usize,
    spent: usize,
    pointers: usize,
) -> Result<NameStep, Refusal>
    requires { (at < length reply.now) × (len ≤ 63) × (spent ≤ 254) }
    ensures { result ≡ label_step reply.now at spent pointers len }
{
    if WRITTEN_MOST < spent + 1 + len + 1 {
        return Err(Refusal::ReplyText);
    }
    if reply.len() - at <= len {
        return Err(cut_after(pointers));
    }
    Ok(NameStep::Label(len))
}

// A pointer must aim below the start of the run of labels it stands in.
#[tactic(auto, unfolding(crate::specs::Internal::Step::pointer_step))]
fn pointer_step(run: usize, aim: usize, pointers: usize) -> Result<NameStep, Refusal>
    ensures { result ≡ pointer_step run pointers aim }
{
    if run <= aim {
        return Err(Refusal::ReplyText);
    }
    if pointers == POINTERS_MOST {
        return Err(Refusal::ReplyText);
    }
    Ok(NameStep::Pointer(aim))
}

// The step at an offset, in a run of labels that starts at `run`, with `spent` octets written out and `pointers` followed so far.
pub fn name_step(
    reply: &[u8],
    run: usize,
    at: usize,
    spent: usize,
    pointers: usize,
) -> Result<NameStep, Refusal>
    requires { (spent ≤ 254) × (pointers ≤ 16) }
    ensures value { result ≡ name_step reply.now run at spent pointers }
    ensures step_within { IfOk result (StepWithin (length reply.now) run at spent pointers) }
{
    match look_at(reply, at) {
        Look::End => Ok(NameStep::Ends),
        Look::Label(len) => label_step(reply, at, len, spent, pointers),
        Look::Pointer(aim) => pointer_step(run, aim, pointers),
        Look::Missing => Err(cut_after(pointers)),
        Look::Reserved => Err(Refusal::ReplyText),
    }
}

// How many octets the labels have when joined by dots, once so many are written out.
pub fn text_len(spent: usize) -> usize
    ensures { result ≡ spent - 1 }
{
    spent.saturating_sub(1)
}
