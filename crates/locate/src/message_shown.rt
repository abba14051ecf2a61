// A mailslot message, shown: its fields, a line each, and its octets.
use console::hex::Hex;
use mailslot::message::Message;
use octets::part::Stretch;
use report::dump::say_dump;
use report::fields::{say_text, say_version};
use report::text::Quoted;
use std::io;
use std::io::Write;

fn say_sid<W: Write>(to: &mut W, octets: &[u8], sid: Stretch) -> io::Result<()> {
    if sid.len == 0 {
        writeln!(to, "sid       {}", "none")
    } else {
        writeln!(to, "sid       {}", Hex(sid.of(octets)))
    }
}

pub fn say_message<W: Write>(to: &mut W, octets: &[u8], message: Message) -> io::Result<()> {
    writeln!(to, "repeat    {}", message.repeat)?;
    say_text(to, "computer  ", octets, message.computer)?;
    say_text(to, "user      ", octets, message.user)?;
    writeln!(to, "mailslot  {}", Quoted(message.mailslot.of(octets)))?;
    writeln!(to, "bits      {:08x}", message.bits)?;
    say_sid(to, octets, message.sid)?;
    say_version(to, message.version)?;
    writeln!(to, "length    {}", octets.len())?;
    say_dump(to, octets)
}
