// A name of a received reply, walked from its start: what was read of it so far, and the steps that go on from there.
ghost use Rattle.std.specs.Prelude.{◌≡◌, ◌≤◌, cond, eqb, length, IfOk, OnErr};
ghost use Rattle.reader_names.specs.Internal.Step.{name_step, StepWithin};
ghost use Rattle.reader_names.specs.Internal.Walk.{walk_from, moved};

use crate::step::{NameStep, name_step};
use answers::Refusal;

// Where the walk stands: in a run of labels that starts at `run`, with `spent` octets written out and `pointers` followed so far.
#[derive(Clone, Copy)]
pub struct NameWalk {
    pub run: usize,
    pub at: usize,
    pub spent: usize,
    pub pointers: usize,
    // where the name's field ends, once a pointer or its zero ended it
    pub next: usize,
}

// A name's field ends with its first pointer, and where it has none, with its zero.
fn field_end(pointers: usize, before: usize, here: usize) -> usize
    ensures { result ≡ cond (eqb pointers 0) here before }
{
    if pointers == 0 {
        return here;
    }
    before
}

impl NameWalk {
    pub fn starting(start: usize) -> NameWalk
        ensures { result ≡ walk_from start }
    {
        NameWalk {
            run: start,
            at: start,
            spent: 0,
            pointers: 0,
            next: 0,
        }
    }

    // Takes one step; a refusal leaves the walk where it was.
    pub fn step(&mut self, reply: &[u8]) -> Result<NameStep, Refusal>
        requires { (self.old.spent ≤ 254) × (self.old.pointers ≤ 16) }
        ensures value { result ≡ name_step reply.now self.old.run self.old.at self.old.spent self.old.pointers }
        ensures within { IfOk result (StepWithin (length reply.now) self.old.run self.old.at self.old.spent self.old.pointers) }
        ensures ok { IfOk result (λ step. self.new ≡ moved self.old step) }
        ensures err { OnErr result (self.new ≡ self.old) }
    {
        let step = name_step(reply, self.run, self.at, self.spent, self.pointers)?;
        match step {
            NameStep::Ends => {
                self.next = field_end(self.pointers, self.next, self.at + 1);
            }
            NameStep::Label(len) => {
                self.at += 1 + len;
                self.spent += 1 + len;
            }
            NameStep::Pointer(aim) => {
                self.next = field_end(self.pointers, self.next, self.at + 2);
                self.run = aim;
                self.at = aim;
                self.pointers += 1;
            }
        }
        Ok(step)
    }
}
