// Texts: comparing them, and what their octets must be.
ghost use Rattle.std.specs.Prelude.{◌≡◌, map};
ghost use Rattle.octets.specs.Internal.FoldIf.{fold_if};
ghost use Rattle.octets.specs.NameRule.{printable, without};
ghost use Rattle.octets.specs.Text.{same, same_folded, all_zero};

// Eight octets at a time, as one test, then those that are left.
pub fn all_zero(s: &[u8]) -> bool
    ensures { result ≡ all_zero s.now }
{
    let (eights, rest) = s.as_chunks::<8>();
    eights.iter().all(|eight| *eight == [0; 8]) && rest.iter().all(|x| *x == 0)
}

pub fn is_printable(s: &[u8]) -> bool
    ensures { result ≡ printable s.now }
{
    s.iter().all(|x| x.is_ascii_graphic())
}

// Whether no octet is x.
pub fn lacks(s: &[u8], x: u8) -> bool
    ensures { result ≡ without x s.now }
{
    !s.contains(&x)
}

// An octet as it is compared: with ASCII case ignored, A to Z are a to z.
pub fn folded(x: u8, ignore_case: bool) -> u8
    ensures { result ≡ fold_if ignore_case x }
{
    if ignore_case {
        x.to_ascii_lowercase()
    } else {
        x
    }
}

// Whether two texts are the same, octet for octet as they are compared.
pub fn alike(a: &[u8], b: &[u8], ignore_case: bool) -> bool
    ensures { result ≡ same (map (fold_if ignore_case) a.now) (map (fold_if ignore_case) b.now) }
{
    if ignore_case {
        same_folded(a, b)
    } else {
        same_octets(a, b)
    }
}

pub fn same_octets(a: &[u8], b: &[u8]) -> bool
    ensures { result ≡ same a.now b.now }
{
    a == b
}

// The same with ASCII case ignored. Most octets are the same as they stand, which is tested first: that takes half the time.
pub fn same_folded(a: &[u8], b: &[u8]) -> bool
    ensures { result ≡ same_folded a.now b.now }
{
    a.len() == b.len()
        && a.iter()
            .zip(b.iter())
            .all(|(x, y)| x == y || x.eq_ignore_ascii_case(y))
}
