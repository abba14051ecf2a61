// What the words of a line stand for. A word of another shape stands for nothing.
ghost use Rattle.std.specs.Prelude.{◌≡◌, ◌+◌, ◌*◌, ◌≤◌, IfOk, IfSome, OnSome, length, vec_len};

use console::hex::{decode, hex_octets};
use console::source::append;
use octets::part::Stretch;
use std::alloc::{AllocError, Global};

// The most room that a line may lend.
const MOST_ROOM: u64 = 4096;

// Lines have lowercase digits alone.
fn are_hex_digits(word: &str) -> bool {
    word.bytes().all(|x| matches!(x, b'0'..=b'9' | b'a'..=b'f'))
}

fn octets_of_digits(alloc: Global, digits: &str) -> Result<Option<Vec<u8>>, AllocError>
    ensures { IfOk result (λ found. IfSome found (λ octets. 2 * vec_len octets ≡ length digits.now)) }
{
    if !are_hex_digits(digits) {
        return Ok(None);
    }
    hex_octets(alloc, digits.as_bytes())
}

// Octets: `-` for none, else two digits for each.
pub fn octets_of(alloc: Global, word: &str) -> Result<Option<Vec<u8>>, AllocError>
    ensures { IfOk result (λ found. IfSome found (λ octets. 2 * vec_len octets ≤ length word.now)) }
{
    match word {
        "" => Ok(None),
        "-" => Ok(Some(Vec::new(alloc))),
        _ => octets_of_digits(alloc, word),
    }
}

// The octets of a line that has one word behind its kind.
pub fn only_octets(alloc: Global, fields: &[&str]) -> Result<Option<Vec<u8>>, AllocError>
    ensures { IfOk result (λ found. OnSome found (length fields.now ≡ 1)) }
{
    match fields {
        [word] => octets_of(alloc, word),
        _ => Ok(None),
    }
}

// Bits, or a client's address: eight digits, the most significant first.
pub fn bits_of(word: &str) -> Option<u32>
    ensures { OnSome result (length word.now ≡ 8) }
{
    if (word.len() != 8) | !are_hex_digits(word) {
        return None;
    }
    u32::from_str_radix(word, 16).ok()
}

// A number of up to ten decimal digits.
pub fn number_of(word: &str) -> Option<u64>
    ensures { OnSome result (length word.now ≤ 10) }
{
    // std takes a sign in front too.
    if (10 < word.len()) | word.starts_with('+') {
        return None;
    }
    word.parse().ok()
}

// The room that a word gives a buffer.
pub fn room_of(word: &str) -> Option<usize>
    ensures { IfSome result (λ room. room ≤ 4096) }
{
    match number_of(word) {
        Some(room) if room <= MOST_ROOM => Some(room as usize),
        _ => None,
    }
}

// A lent buffer before a call: A5h in every octet.
pub fn filled() -> [u8; 4096]
    ensures { 4096 ≡ length result }
{
    [0xA5; 4096]
}

// As much of it as a line asks.
pub fn filled_room(alloc: Global, room: usize) -> Result<Vec<u8>, AllocError>
    requires { room ≤ 4096 }
    ensures { IfOk result (λ buffer. vec_len buffer ≡ room) }
{
    Vec::from_slice(alloc, &filled()[..room])
}

// The buffer that a word lends to a call.
pub fn buffer_of(alloc: Global, word: &str) -> Result<Option<Vec<u8>>, AllocError>
    ensures { IfOk result (λ lent. IfSome lent (λ buffer. vec_len buffer ≤ 4096)) }
{
    match room_of(word) {
        Some(room) => Ok(Some(filled_room(alloc, room)?)),
        None => Ok(None),
    }
}

// Puts the octets of a text's digits at a place of a lent source: where they stand, no more than fit. A place past its end takes none.
pub fn take_text(digits: &str, source: &mut [u8], start: usize) -> Stretch
    ensures within { result.start + result.len ≤ length source.new }
    ensures full { start ≤ length source.new → 2 * length source.new ≤ 2 * start + length digits.now
        → result.start + result.len ≡ length source.new }
{
    if source.len() < start {
        return Stretch { start: 0, len: 0 };
    }
    let len = decode(digits.as_bytes(), &mut source[start..]);
    Stretch { start, len }
}

// A text: `=` and two digits for each octet. Its octets are put at the end of the source.
pub fn text_of(source: &mut Vec<u8>, word: &str) -> Result<Option<Stretch>, AllocError>
    ensures { IfOk result (λ found. IfSome found (λ text. text.start + text.len ≡ vec_len source.new)) }
{
    let Some(digits) = word.strip_prefix('=') else {
        return Ok(None);
    };
    if (digits.len() % 2 != 0) | !are_hex_digits(digits) {
        return Ok(None);
    }
    let mut octets = vec![in *source.allocator(); 0; digits.len() / 2]?;
    let text = take_text(digits, &mut octets, 0);
    Ok(Some(append(source, text.of(&octets))?))
}

#[cfg(test)]
mod tests {
    use super::*;
    use std::test::Fail;

    #[test]
    fn lent_buffers(rt: HostRuntime) {
        assert_eq!(rt; filled().iter().all(|x| *x == 0xA5), true);
        let mut source = [7; 4];
        let text = take_text("0102a5", &mut source, 2);
        assert_eq!(rt; (text.start, text.len), (2, 2));
        assert_eq!(rt; source, [7, 7, 1, 2]);
        let past = take_text("03", &mut source, 5);
        assert_eq!(rt; (past.start, past.len), (0, 0));
        assert_eq!(rt; source, [7, 7, 1, 2]);
    }

    #[test]
    fn words_that_take_memory(rt: HostRuntime) -> Result<(), Fail> {
        let alloc = rt.alloc();
        assert_eq!(rt;
            octets_of(alloc, "00a5")?.as_deref(),
            Some([0, 0xA5].as_slice())
        );
        assert_eq!(rt; octets_of(alloc, "-")?.as_deref(), Some([].as_slice()));
        assert_eq!(rt; octets_of(alloc, "00A5")?.is_none(), true);
        assert_eq!(rt; filled_room(alloc, 1)?.as_slice(), [0xA5].as_slice());
        assert_eq!(rt;
            buffer_of(alloc, "2")?.as_deref(),
            Some([0xA5, 0xA5].as_slice())
        );
        assert_eq!(rt; buffer_of(alloc, "4097")?.is_none(), true);
        let mut source = Vec::from_slice(alloc, &[7])?;
        assert_eq!(rt;
            text_of(&mut source, "=0102")?.map(|text| text.start),
            Some(1)
        );
        assert_eq!(rt; source.as_slice(), [7, 1, 2].as_slice());
        assert_eq!(rt; text_of(&mut source, "0102")?.is_none(), true);
        assert_eq!(rt; text_of(&mut source, "=012")?.is_none(), true);
        Ok(())
    }
}
