// Numbers of 32 bits, decimal or hex after 0x.

pub fn number_of(text: &[u8]) -> Option<u32> {
    let (digits, radix) = match text {
        [b'0', b'x' | b'X', digits @ ..] => (digits, 16),
        _ => (text, 10),
    };
    // std takes a sign in front too.
    if digits.starts_with(b"+") {
        return None;
    }
    u32::from_str_radix(str::from_utf8(digits).ok()?, radix).ok()
}
