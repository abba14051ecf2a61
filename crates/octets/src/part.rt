// Stretches of a lent slice, never copies.
ghost use Rattle.std.specs.Prelude.{◌≡◌};
ghost use Rattle.octets.specs.Lists.{cut};
ghost use Rattle.octets.specs.Stretch.{stretch_of};

// A stretch of octets that are lent elsewhere: where it starts, and how many octets it has.
#[derive(Clone, Copy)]
pub struct Stretch {
    pub start: usize,
    pub len: usize,
}

impl Stretch {
    // The octets of it that are there.
    pub fn of(self, s: &[u8]) -> &[u8]
        ensures { result.now ≡ stretch_of s.now self }
    {
        part(s, self.start, self.len)
    }
}

// As many of the len octets from start as there are.
pub fn part(s: &[u8], start: usize, len: usize) -> &[u8]
    ensures { result.now ≡ cut s.now start len }
{
    if s.len() <= start {
        return &s[..0];
    }
    if s.len() - start <= len {
        return &s[start..];
    }
    &s[start..start + len]
}
