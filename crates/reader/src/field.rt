// Fields of a received reply: what stands at an offset, and where the next field starts. A field counts whole at its first octet.
ghost use Rattle.std.specs.Prelude.{◌≡◌, ◌+◌, ◌≤◌, length, IfOk};
ghost use Rattle.answers.specs.Wire.{older_opcodes, ex_opcodes, opcodes_of, is_one_of};
ghost use Rattle.octets.specs.Lists.{cut};
ghost use Rattle.reader.specs.Field.{read_octets, read_stretch, read_fixed, valued};
ghost use Rattle.reader.specs.Reader.{read_constant, read_number, read_opcode};

use answers::wire::{
    LOGON_SAM_LOGON_RESPONSE, LOGON_SAM_LOGON_RESPONSE_EX, LOGON_SAM_PAUSE_RESPONSE,
    LOGON_SAM_PAUSE_RESPONSE_EX, LOGON_SAM_USER_UNKNOWN, LOGON_SAM_USER_UNKNOWN_EX,
};
use answers::{Form, Refusal};
use octets::number::{u16_at, u32_at};
use octets::part::{Stretch, part};
use octets::text::same_octets;

// What a field holds, and where the next one starts.
#[derive(Clone, Copy)]
pub struct Read<T> {
    pub value: T,
    pub next: usize,
}

// Where so many octets from an offset end: 31 if they are not all there.
#[tactic(auto, unfolding(crate::specs::Field::read_octets))]
pub fn octets_at(reply: &[u8], at: usize, count: usize) -> Result<usize, Refusal>
    ensures field { valued (cut reply.now at count) result ≡ read_octets reply.now at count }
    ensures within { IfOk result (λ next. (next ≡ at + count) × (next ≤ length reply.now)) }
{
    if reply.len() < count || reply.len() - count < at {
        return Err(Refusal::ReplyCut);
    }
    Ok(at + count)
}

// The same as a stretch of the reply.
#[tactic(auto, unfolding(crate::specs::Field::read_stretch))]
pub fn stretch_at(reply: &[u8], at: usize, count: usize) -> Result<Read<Stretch>, Refusal>
    ensures { result ≡ read_stretch reply.now at count }
{
    let next = octets_at(reply, at, count)?;
    Ok(Read {
        value: Stretch {
            start: at,
            len: count,
        },
        next,
    })
}

// Where a fixed field ends: 34 if it is another.
#[tactic(auto, unfolding(crate::specs::Field::read_fixed))]
pub fn fixed_at(reply: &[u8], at: usize, octets: &[u8]) -> Result<usize, Refusal>
    ensures field { valued (cut reply.now at (length octets.now)) result ≡ read_fixed reply.now at octets.now }
    ensures within { IfOk result (λ next. (next ≡ at + length octets.now) × (next ≤ length reply.now)) }
{
    let next = octets_at(reply, at, octets.len())?;
    if !same_octets(part(reply, at, octets.len()), octets) {
        return Err(Refusal::ReplyFixed);
    }
    Ok(next)
}

// A fixed number of two octets. One function a width: a trait for `to_le_bytes` alone would be no plainer.
pub fn fixed_u16_at(reply: &[u8], at: usize, number: u16) -> Result<usize, Refusal>
    ensures field { valued (cut reply.now at 2) result ≡ read_constant 2 number reply.now at }
    ensures within { IfOk result (λ next. (next ≡ at + 2) × (next ≤ length reply.now)) }
{
    fixed_at(reply, at, &number.to_le_bytes())
}

// A fixed number of four octets.
pub fn fixed_u32_at(reply: &[u8], at: usize, number: u32) -> Result<usize, Refusal>
    ensures field { valued (cut reply.now at 4) result ≡ read_constant 4 number reply.now at }
    ensures within { IfOk result (λ next. (next ≡ at + 4) × (next ≤ length reply.now)) }
{
    fixed_at(reply, at, &number.to_le_bytes())
}

// Any number of four octets.
#[tactic(auto, unfolding(crate::specs::Reader::read_number))]
pub fn number_at(reply: &[u8], at: usize) -> Result<Read<u32>, Refusal>
    ensures { result ≡ read_number reply.now at }
{
    let next = octets_at(reply, at, 4)?;
    Ok(Read {
        value: u32_at(reply, at),
        next,
    })
}

// Two lists of three numbers each: one function of a list would lend it to a call, and say no more.
fn is_older_opcode(opcode: u16) -> bool
    ensures { result ≡ is_one_of older_opcodes opcode }
{
    (opcode == LOGON_SAM_LOGON_RESPONSE)
        | (opcode == LOGON_SAM_PAUSE_RESPONSE)
        | (opcode == LOGON_SAM_USER_UNKNOWN)
}

fn is_ex_opcode(opcode: u16) -> bool
    ensures { result ≡ is_one_of ex_opcodes opcode }
{
    (opcode == LOGON_SAM_LOGON_RESPONSE_EX)
        | (opcode == LOGON_SAM_PAUSE_RESPONSE_EX)
        | (opcode == LOGON_SAM_USER_UNKNOWN_EX)
}

fn is_opcode_of(form: Form, opcode: u16) -> bool
    ensures { result ≡ is_one_of (opcodes_of form) opcode }
{
    match form {
        Form::Nt40 | Form::Response => is_older_opcode(opcode),
        Form::Ex => is_ex_opcode(opcode),
    }
}

// The opcode that a reply starts with: 32 if it is not of this form.
#[tactic(auto, unfolding(crate::specs::Reader::read_opcode))]
pub fn opcode_of(reply: &[u8], form: Form) -> Result<Read<u16>, Refusal>
    ensures { result ≡ read_opcode (opcodes_of form) reply.now }
{
    let next = octets_at(reply, 0, 2)?;
    let opcode = u16_at(reply, 0);
    if !is_opcode_of(form, opcode) {
        return Err(Refusal::ReplyOpcode);
    }
    Ok(Read {
        value: opcode,
        next,
    })
}
