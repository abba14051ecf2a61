// That a slice holds octets. Its elements are known to be below 256 only where one is read, and then all are: `To8` asks for it.
ghost use Rattle.std.specs.Prelude.{◌≡◌, true};
ghost use Rattle.transcode.specs.Transcode.{are_octets};

pub fn first_octet(s: &[u8]) -> u8
    ensures { are_octets s.now ≡ true }
{
    if s.len() == 0 {
        return 0;
    }
    s[0]
}
