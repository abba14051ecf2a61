// Names of a received reply one after the other.
ghost use Rattle.reader_names.specs.Internal.NamesRead.{NamesOf};

use crate::NameAt;
use crate::read::read_name;
use answers::Refusal;
use reader::field::Read;

// N names, one after the other.
pub fn read_names<const N: usize>(reply: &[u8], start: usize) -> Result<Read<[NameAt; N]>, Refusal>
    ensures { NamesOf reply.now start N result }
{
    let mut names = [NameAt {
        start: 0,
        len: 0,
        pointers: 0,
    }; N];
    let mut next = start;
    for i in 0..N {
        let name = read_name(reply, next)?;
        names[i] = name.value;
        next = name.next;
    }
    Ok(Read { value: names, next })
}
