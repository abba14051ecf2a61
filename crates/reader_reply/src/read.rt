// Reading a received reply: document 01, "Reading a reply".
ghost use Rattle.reader_forms.specs.Reading.{ReadReplyPromise};

use answers::{Form, Refusal};
use reader_ex::ex::read_ex;
use reader_forms::reading::Reading;
use reader_older::opening::read_nt40;
use reader_older::response::read_response;

// Reads any octets as a reply in the form and with the version bits that the reader is told. The texts of its names are given by
// reader_text::text::name_text, from their first offsets.
pub fn read_reply(reply: &[u8], form: Form, version: u32) -> Result<Reading, Refusal>
    ensures { ReadReplyPromise reply.now form version result }
{
    match form {
        Form::Nt40 => read_nt40(reply),
        Form::Response => read_response(reply),
        Form::Ex => read_ex(reply, version),
    }
}
