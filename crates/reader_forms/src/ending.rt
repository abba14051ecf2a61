// What ends every reply: the version and the two tokens, and nothing after them.
ghost use Rattle.reader_forms.specs.Internal.Ending.{TokensEnd, VersionEnds};

use answers::Refusal;
use answers::wire::{LM_NT_TOKEN, LM20_TOKEN};
use reader::field::{fixed_u16_at, fixed_u32_at};

// 35 where octets are left over.
#[tactic(auto, unfolding(reader::specs::Reader::read_tokens))]
pub fn tokens_at(reply: &[u8], at: usize) -> Result<(), Refusal>
    ensures { TokensEnd reply.now at result }
{
    let next = fixed_u16_at(reply, at, LM_NT_TOKEN)?;
    let end = fixed_u16_at(reply, next, LM20_TOKEN)?;
    if end != reply.len() {
        return Err(Refusal::ReplyLeftOver);
    }
    Ok(())
}

// A fixed version, and the tokens.
pub fn ending_at(reply: &[u8], at: usize, version: u32) -> Result<(), Refusal>
    ensures { VersionEnds reply.now at version result }
{
    let next = fixed_u32_at(reply, at, version)?;
    tokens_at(reply, next)
}
