// A reader, gathered into lines.
ghost use Rattle.std.specs.Prelude.{◌≡◌, ◌≤◌, IfErr, IfOk, length};

use crate::answer::{LONGEST, answer_line};
use std::alloc::Global;
use std::io;
use std::io::{Read, Write};

// One octet more than the longest line has, so that a longer one is told from it.
const LINE_SIZE: usize = LONGEST + 1;

// Takes one octet: an LF ends the line, another is kept while there is room. How many octets of the line are kept then. An error is the
// writer's, or one of memory, of the line's answer.
fn take_octet<W: Write>(
    to: &mut W,
    octet: u8,
    line: &mut [u8],
    len: usize,
    image: &mut Vec<u8>,
) -> io::Result<usize>
    requires { len ≤ length line.old }
    ensures taken { IfOk result (λ longer. longer ≤ length line.old) }
    ensures failed { IfErr result (λ _. line.new ≡ line.old) }
{
    if octet == b'\n' {
        answer_line(to, &line[..len], image)?;
        return Ok(0);
    }
    if len < line.len() {
        line[len] = octet;
        return Ok(len + 1);
    }
    Ok(len)
}

// The octets of one read.
fn take_octets<W: Write>(
    to: &mut W,
    octets: &[u8],
    line: &mut [u8],
    len: usize,
    image: &mut Vec<u8>,
) -> io::Result<usize>
    requires { len ≤ length line.old }
    ensures { IfOk result (λ longer. longer ≤ length line.old) }
{
    let mut kept = len;
    for octet in octets {
        kept = take_octet(to, *octet, line, kept, image)?;
    }
    Ok(kept)
}

// A proved loop has to end, so the reads are counted up to a number that no input uses up.
pub fn answer_all<R: Read + Drop, W: Write>(alloc: Global, from: R, to: &mut W) -> io::Result<()> {
    let mut from = from;
    let mut octets = vec![in alloc; 0; 65536]?;
    let mut line = [0; LINE_SIZE];
    let mut len = 0;
    // what the last `table` line gave
    let mut image = Vec::new(alloc);
    for _ in 0..u64::MAX {
        let count = from.read(&mut octets)?;
        if count == 0 {
            break;
        }
        len = take_octets(to, &octets[..count], &mut line, len, &mut image)?;
    }
    answer_line(to, &line[..len], &mut image)
}
