// Octets that are put one behind the other, and lent as stretches.
ghost use Rattle.std.specs.Prelude.{◌≡◌, ◌+◌, ◌++◌, IfOk, OnOk, length, vec_len};

use octets::part::Stretch;
use std::alloc::AllocError;

// Puts octets at the end of a source: where they stand there.
pub fn append(source: &mut Vec<u8>, octets: &[u8]) -> Result<Stretch, AllocError>
    ensures place { IfOk result (λ put. (put.start ≡ vec_len source.old) × (put.len ≡ length octets.now)) }
    ensures put { OnOk result (source.new.items ≡ source.old.items ++ octets.now) }
    ensures len { OnOk result (vec_len source.new ≡ vec_len source.old + length octets.now) }
{
    let start = source.len();
    source.extend_from_slice(octets)?;
    let len = octets.len();
    Ok(Stretch { start, len })
}

#[cfg(test)]
mod tests {
    use super::*;
    use std::test::Fail;

    #[test]
    fn octets_stand_behind(rt: HostRuntime) -> Result<(), Fail> {
        let mut source = Vec::from_slice(rt.alloc(), &[1, 2])?;
        let put = append(&mut source, &[3])?;
        assert_eq!(rt; put.of(&source), [3].as_slice());
        assert_eq!(rt; source.as_slice(), [1, 2, 3].as_slice());
        Ok(())
    }
}
