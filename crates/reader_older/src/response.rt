// A RESPONSE, read: after the opening a GUID, sixteen zeros, three names, an address and flags.
ghost use Rattle.std.specs.Prelude.{◌≡◌};
ghost use Rattle.reader.specs.Reader.{read_response};
ghost use Rattle.reader_forms.specs.Reading.{reading_as};

use crate::opening::read_opening;
use answers::Refusal;
use answers::wire::{NULL_GUID, RESPONSE_VERSION};
use octets::size::{GUID_SIZE, IPV4_SIZE};
use reader::field::{fixed_at, number_at, stretch_at};
use reader_forms::ending::ending_at;
use reader_forms::reading::{Fields, Reading, ResponseFields};
use reader_names::list::read_names;

// A RESPONSE has the first three of the names.
const NAMES: usize = 3;

#[tactic(auto, unfolding(reader::specs::Reader::read_response))]
pub fn read_response(reply: &[u8]) -> Result<Reading, Refusal>
    ensures { result ≡ reading_as reply.now (read_response reply.now) }
{
    let opening = read_opening(reply)?;
    let guid = stretch_at(reply, opening.next, GUID_SIZE)?;
    let names_at = fixed_at(reply, guid.next, &NULL_GUID)?;
    let names = read_names::<NAMES>(reply, names_at)?;
    let ipv4 = stretch_at(reply, names.next, IPV4_SIZE)?;
    let flags = number_at(reply, ipv4.next)?;
    ending_at(reply, flags.next, RESPONSE_VERSION)?;
    Ok(Reading {
        length: reply.len(),
        fields: Fields::Response(ResponseFields {
            opcode: opening.value.opcode,
            server: opening.value.server,
            user: opening.value.user,
            domain: opening.value.domain,
            guid: guid.value,
            forest: names.value[0],
            context: names.value[1],
            host: names.value[2],
            ipv4: ipv4.value,
            flags: flags.value,
            version: RESPONSE_VERSION,
        }),
    })
}
