// A reply as it was read, with its octets. One that is refused has no fields.
use crate::dump::say_dump;
use crate::fields::say_fields;
use answers::Refusal;
use reader_forms::reading::Reading;
use std::io;
use std::io::Write;

pub fn say_reading<W: Write>(
    to: &mut W,
    reply: &[u8],
    reading: &Result<Reading, Refusal>,
) -> io::Result<()> {
    if let Ok(reading) = reading {
        say_fields(to, reply, &reading.fields)?;
        writeln!(to, "length    {}", reading.length)?;
    }
    say_dump(to, reply)
}
