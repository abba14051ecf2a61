// How the two older forms start: the opcode and three texts. With the version and the tokens that is all of an NT40.
ghost use Rattle.std.specs.Prelude.{◌≡◌};
ghost use Rattle.reader.specs.Reader.{read_opening, read_nt40};
ghost use Rattle.reader_forms.specs.Reading.{reading_as};
ghost use Rattle.reader_older.specs.Internal.Opening.{opening_in};

use answers::wire::NT40_VERSION;
use answers::{Form, Refusal};
use octets::part::Stretch;
use reader::field::{Read, opcode_of};
use reader::text::read_text;
use reader_forms::ending::ending_at;
use reader_forms::reading::{Fields, Nt40Fields, Reading};

#[derive(Clone, Copy)]
pub struct Opening {
    pub opcode: u16,
    pub server: Stretch,
    pub user: Stretch,
    pub domain: Stretch,
}

// Both older forms have the opcodes of NT40.
#[tactic(auto, unfolding(reader::specs::Reader::read_opening))]
pub fn read_opening(reply: &[u8]) -> Result<Read<Opening>, Refusal>
    ensures { opening_in result ≡ read_opening reply.now }
{
    let opcode = opcode_of(reply, Form::Nt40)?;
    let server = read_text(reply, opcode.next)?;
    let user = read_text(reply, server.next)?;
    let domain = read_text(reply, user.next)?;
    Ok(Read {
        value: Opening {
            opcode: opcode.value,
            server: server.value,
            user: user.value,
            domain: domain.value,
        },
        next: domain.next,
    })
}

#[tactic(auto, unfolding(reader::specs::Reader::read_nt40))]
pub fn read_nt40(reply: &[u8]) -> Result<Reading, Refusal>
    ensures { result ≡ reading_as reply.now (read_nt40 reply.now) }
{
    let opening = read_opening(reply)?;
    ending_at(reply, opening.next, NT40_VERSION)?;
    let Opening {
        opcode,
        server,
        user,
        domain,
    } = opening.value;
    Ok(Reading {
        length: reply.len(),
        fields: Fields::Nt40(Nt40Fields {
            opcode,
            server,
            user,
            domain,
            version: NT40_VERSION,
        }),
    })
}
