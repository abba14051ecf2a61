// The server's address in an EX, where v asks for it.
ghost use Rattle.std.specs.Prelude.{◌≡◌};
ghost use Rattle.reader.specs.Reader.{read_address};

use answers::Refusal;
use answers::wire::{DC_SOCK_ADDR_SIZE, SIN_FAMILY, SIN_ZERO};
use octets::part::Stretch;
use octets::size::IPV4_SIZE;
use reader::field::{Read, fixed_at, fixed_u32_at, stretch_at};

#[tactic(auto, unfolding(reader::specs::Reader::read_address))]
pub fn read_address(reply: &[u8], asked: bool, at: usize) -> Result<Read<Option<Stretch>>, Refusal>
    ensures { result ≡ read_address asked reply.now at }
{
    if !asked {
        return Ok(Read {
            value: None,
            next: at,
        });
    }
    let family = fixed_at(reply, at, &[DC_SOCK_ADDR_SIZE])?;
    let start = fixed_u32_at(reply, family, SIN_FAMILY)?;
    let ipv4 = stretch_at(reply, start, IPV4_SIZE)?;
    let next = fixed_at(reply, ipv4.next, &SIN_ZERO)?;
    Ok(Read {
        value: Some(ipv4.value),
        next,
    })
}
