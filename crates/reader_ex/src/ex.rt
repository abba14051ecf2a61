// An EX, read: numbers, a GUID, eight names, the address where v asks for it, and name 8 where the version shows it.
ghost use Rattle.std.specs.Prelude.{◌≡◌};
ghost use Rattle.reader.specs.Reader.{read_ex};
ghost use Rattle.reader_forms.specs.Reading.{reading_as};

use answers::wire::{NETLOGON_NT_VERSION_5EX_WITH_IP, SBZ};
use answers::{Form, Refusal};
use octets::number::has_bits;
use octets::size::GUID_SIZE;
use reader::field::{fixed_u16_at, number_at, opcode_of, stretch_at};
use reader_forms::ending::tokens_at;
use reader_forms::reading::{ExFields, Fields, Reading};
use reader_last::address::read_address;
use reader_last::last::{has_next_site, read_last};
use reader_names::list::read_names;

// An EX has eight names before its address: name 8 comes after it.
const NAMES: usize = 8;

#[tactic(auto, unfolding(reader::specs::Reader::read_ex))]
pub fn read_ex(reply: &[u8], version: u32) -> Result<Reading, Refusal>
    ensures { result ≡ reading_as reply.now (read_ex version reply.now) }
{
    let opcode = opcode_of(reply, Form::Ex)?;
    let flags_at = fixed_u16_at(reply, opcode.next, SBZ)?;
    let flags = number_at(reply, flags_at)?;
    let guid = stretch_at(reply, flags.next, GUID_SIZE)?;
    let names = read_names::<NAMES>(reply, guid.next)?;
    let with_address = has_bits(version, NETLOGON_NT_VERSION_5EX_WITH_IP);
    let ipv4 = read_address(reply, with_address, names.next)?;
    let last = read_last(reply, has_next_site(reply), version, ipv4.next)?;
    tokens_at(reply, last.next)?;
    Ok(Reading {
        length: reply.len(),
        fields: Fields::Ex(ExFields {
            opcode: opcode.value,
            flags: flags.value,
            guid: guid.value,
            forest: names.value[0],
            context: names.value[1],
            host: names.value[2],
            context_netbios: names.value[3],
            server_netbios: names.value[4],
            user: names.value[5],
            own_site: names.value[6],
            client_site: names.value[7],
            ipv4: ipv4.value,
            next_site: last.value.next_site,
            version: last.value.version,
        }),
    })
}
