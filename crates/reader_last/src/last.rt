// Name 8 of an EX, where it is present, and the version that goes with it.
ghost use Rattle.std.specs.Prelude.{◌≡◌, true};
ghost use Rattle.reader.specs.Reader.{has_next_site};
ghost use Rattle.reader_last.specs.Internal.Last.{LastOf};

use answers::Refusal;
use answers::wire::{
    ENDING_SIZE, EX_VERSION, EX_VERSION_WITH_NEXT_SITE, NETLOGON_NT_VERSION_WITH_CLOSEST_SITE,
};
use octets::number::{has_bits, u32_at};
use reader::field::{Read, fixed_u32_at};
use reader_names::NameAt;
use reader_names::read::read_name;

#[derive(Clone, Copy)]
pub struct Last {
    pub next_site: Option<NameAt>,
    pub version: u32,
}

// Name 8 is present exactly when the version 8 octets from the end is 15h, whatever v asks.
#[tactic(auto, unfolding(reader::specs::Reader::has_next_site))]
pub fn has_next_site(reply: &[u8]) -> bool
    ensures { result ≡ has_next_site reply.now }
{
    ENDING_SIZE <= reply.len()
        && u32_at(reply, reply.len() - ENDING_SIZE) == EX_VERSION_WITH_NEXT_SITE
}

// Name 8 and the version that goes with it: 34 where v lacks its bit.
#[tactic(auto, unfolding(reader::specs::Reader::read_last))]
fn read_next_site(reply: &[u8], asked: u32, at: usize) -> Result<Read<Last>, Refusal>
    ensures { LastOf reply.now true asked at result }
{
    let site = read_name(reply, at)?;
    let next = fixed_u32_at(reply, site.next, EX_VERSION_WITH_NEXT_SITE)?;
    if !has_bits(asked, NETLOGON_NT_VERSION_WITH_CLOSEST_SITE) {
        return Err(Refusal::ReplyFixed);
    }
    Ok(Read {
        value: Last {
            next_site: Some(site.value),
            version: EX_VERSION_WITH_NEXT_SITE,
        },
        next,
    })
}

// The version is judged again where it stands.
#[tactic(auto, unfolding(reader::specs::Reader::read_last))]
pub fn read_last(reply: &[u8], present: bool, asked: u32, at: usize) -> Result<Read<Last>, Refusal>
    ensures { LastOf reply.now present asked at result }
{
    if present {
        return read_next_site(reply, asked, at);
    }
    let next = fixed_u32_at(reply, at, EX_VERSION)?;
    Ok(Read {
        value: Last {
            next_site: None,
            version: EX_VERSION,
        },
        next,
    })
}
