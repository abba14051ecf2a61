// A UTF-16 text of a received reply, which ends in a zero unit.
ghost use Rattle.std.specs.Prelude.{◌≡◌, length, IfOk};
ghost use Rattle.reader.specs.Text.{unit_of, turn, read_text};
ghost use Rattle.reader.specs.Internal.Text.{unit_step, StepWithin};

use crate::field::{Read, octets_at};
use answers::Refusal;
use octets::number::u16_at;
use octets::part::Stretch;

// A unit: the zero unit that ends a text, a unit of its own, the first or the second half of a pair.
#[derive(Clone, Copy)]
pub enum Unit16 {
    Ends,
    Plain,
    High,
    Low,
}

// What a unit leads to: the text ends, it goes on, after a high surrogate or not, or it is no UTF-16.
#[derive(Clone, Copy)]
pub enum Turn {
    Stop,
    Go(bool),
    Wrong,
}

// A unit that was read, and where the next one starts.
#[derive(Clone, Copy)]
pub enum UnitStep {
    Stop(usize),
    Go { after_high: bool, next: usize },
}

const FIRST_HIGH: u16 = 0xD800;

const FIRST_LOW: u16 = 0xDC00;

const AFTER_LOW: u16 = 0xE000;

fn unit_of(unit: u16) -> Unit16
    ensures { result ≡ unit_of unit }
{
    if unit == 0 {
        return Unit16::Ends;
    }
    if unit < FIRST_HIGH {
        return Unit16::Plain;
    }
    if unit < FIRST_LOW {
        return Unit16::High;
    }
    if unit < AFTER_LOW {
        return Unit16::Low;
    }
    Unit16::Plain
}

// After a high surrogate nothing but a low one may come, and a low one nowhere else.
fn turn_of(after_high: bool, unit: Unit16) -> Turn
    ensures { result ≡ turn after_high unit }
{
    if after_high {
        return match unit {
            Unit16::Low => Turn::Go(false),
            Unit16::Ends => Turn::Wrong,
            Unit16::Plain => Turn::Wrong,
            Unit16::High => Turn::Wrong,
        };
    }
    match unit {
        Unit16::Ends => Turn::Stop,
        Unit16::Plain => Turn::Go(false),
        Unit16::High => Turn::Go(true),
        Unit16::Low => Turn::Wrong,
    }
}

// 31 where a unit is not all there, 33 at a lone surrogate.
#[tactic(auto, unfolding(crate::specs::Internal::Text::unit_step))]
fn unit_step(reply: &[u8], at: usize, after_high: bool) -> Result<UnitStep, Refusal>
    ensures value { result ≡ unit_step reply.now at after_high }
    ensures step_within { IfOk result (StepWithin (length reply.now) at) }
{
    let next = octets_at(reply, at, 2)?;
    match turn_of(after_high, unit_of(u16_at(reply, at))) {
        Turn::Stop => Ok(UnitStep::Stop(next)),
        Turn::Go(high) => Ok(UnitStep::Go {
            after_high: high,
            next,
        }),
        Turn::Wrong => Err(Refusal::ReplyText),
    }
}

// The text at an offset, as its stretch before the zero unit. A `loop`, as any decoder: each unit decides how the next is taken.
pub fn read_text(reply: &[u8], start: usize) -> Result<Read<Stretch>, Refusal>
    ensures { result ≡ read_text reply.now start }
{
    let mut at = start;
    let mut pending = false;
    loop {
        match unit_step(reply, at, pending)? {
            UnitStep::Stop(next) => {
                return Ok(Read {
                    value: Stretch {
                        start,
                        len: at - start,
                    },
                    next,
                });
            }
            UnitStep::Go { after_high, next } => {
                pending = after_high;
                at = next;
            }
        }
    }
}
