// A file read whole.
ghost use Rattle.std.specs.Prelude.{◌≤◌, IfOk, length};

use crate::fault::{Fault, Shown};
use crate::word::take_word;
use octets::part::part;
use std::env::Env;
use std::fs::{File, Files};
use std::io;
use std::io::{ErrorKind, Read};
use table::block::IMAGE_MOST;

// The number of the argument that names a table; the program's own name is 0.
pub const TABLE: usize = 1;

// One octet more than an image may have, so that a longer file is refused.
pub const IMAGE_SIZE: usize = IMAGE_MOST + 1;

// The longest name of a file that Linux takes, with its end.
const PATH_SIZE: usize = 4096;

// Puts what a reader gives at the front of out: how much. What does not fit stays unread.
fn read_open<R: Read>(reader: &mut R, out: &mut [u8]) -> io::Result<usize>
    ensures { IfOk result (λ len. len ≤ length out.new) }
{
    let mut len = 0;
    // A step is what one read gives: no `for`.
    while len < out.len() {
        let count = reader.read(&mut out[len..])?;
        if count == 0 {
            return Ok(len);
        }
        len += count;
    }
    Ok(len)
}

// Puts a file's octets at the front of out: how many. A longer one fills it.
pub fn read_file<F: Files>(files: &F, path: &[u8], out: &mut [u8]) -> io::Result<usize>
    ensures { IfOk result (λ len. len ≤ length out.new) }
{
    let Ok(name) = str::from_utf8(path) else {
        return Err(io::Error::new(ErrorKind::InvalidFilename, "the name is not UTF-8"));
    };
    let mut file = File::open(files, name)?;
    read_open(&mut file, out)
}

// The image that the argument TABLE names, put at the front of lent room.
pub fn read_table<'a, E: Env + Files>(env: &E, room: &'a mut [u8]) -> Result<&'a [u8], Fault> {
    let mut word = [0; PATH_SIZE];
    let path = take_word(env, TABLE, "TABLE", &mut word)?;
    if path.is_empty() {
        return Err(Fault::Slip("TABLE is empty\n"));
    }
    match read_file(env, path, room) {
        Ok(len) => Ok(part(room, 0, len)),
        Err(error) => Err(Fault::File(error, Shown::of(path))),
    }
}

#[cfg(test)]
mod tests {
    use super::*;
    use std::fs;
    use std::test::Fail;

    #[test]
    fn a_file_is_read_up_to_a_limit(rt: HostRuntime) -> Result<(), Fail> {
        fs::write(&rt, "read_file.octets", [1u8, 2, 3].as_slice())?;
        let mut room = [0; 4];
        let whole = read_file(&rt, b"read_file.octets", &mut room)?;
        let cut = read_file(&rt, b"read_file.octets", &mut room[..2])?;
        fs::remove_file(&rt, "read_file.octets")?;
        assert_eq!(rt; room, [1, 2, 3, 0]);
        assert_eq!(rt; (whole, cut), (3, 2));
        assert_eq!(rt;
            read_file(&rt, b"read_file.octets", &mut room).is_err(),
            true
        );
        Ok(())
    }
}
