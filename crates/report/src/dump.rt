// Octets as lines of sixteen: the offset, hex digits, and what is printable of them.
use crate::text::is_printable;
use console::hex::Hex;
use octets::part::part;
use std::io;
use std::io::Write;

const WIDTH: usize = 16;

// The last line may lack columns.
fn say_columns<W: Write>(to: &mut W, line: &[u8]) -> io::Result<()> {
    for i in 0..WIDTH {
        if i == WIDTH / 2 {
            write!(to, " ")?;
        }
        match line.get(i) {
            Some(octet) => write!(to, " {}", Hex(&[*octet]))?,
            None => write!(to, "   ")?,
        }
    }
    Ok(())
}

fn glyph_of(octet: u8) -> char {
    if is_printable(octet) {
        char::from(octet)
    } else {
        '.'
    }
}

fn say_glyphs<W: Write>(to: &mut W, line: &[u8]) -> io::Result<()> {
    for octet in line {
        write!(to, "{}", glyph_of(*octet))?;
    }
    Ok(())
}

fn say_line<W: Write>(to: &mut W, at: usize, line: &[u8]) -> io::Result<()> {
    write!(to, "{at:08x} ")?;
    say_columns(to, line)?;
    write!(to, "  ")?;
    say_glyphs(to, line)?;
    writeln!(to)
}

pub fn say_dump<W: Write>(to: &mut W, octets: &[u8]) -> io::Result<()> {
    for at in (0..octets.len()).step_by(WIDTH) {
        say_line(to, at, part(octets, at, WIDTH))?;
    }
    Ok(())
}
