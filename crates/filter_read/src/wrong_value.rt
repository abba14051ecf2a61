// 9: clauses whose values are wrong, and the numbers of those that are not.
ghost use Rattle.std.specs.Prelude.{◌≡◌, false, true, ◌||◌, option_map, unwrap_or};
ghost use Rattle.octets.specs.{Number.little, Stretch.stretch_of};
ghost use Rattle.filter.specs.Request.{octets_of};
ghost use Rattle.filter_read.specs.Internal.WrongValue.{wrong_number, wrong_user};
ghost use Rattle.filter_read.specs.Value.{is_number};

use octets::number::u32_at;
use octets::part::Stretch;
use unicode_text::user_name::is_user_name;

// The octets of NtVer and of AAC.
const NUMBER_WIDTH: usize = 4;

// A clause that is present and is no number of four octets.
fn is_wrong_number(s: &[u8], clause: Option<Stretch>) -> bool
    ensures { result ≡ wrong_number s.now clause }
{
    let Some(stretch) = clause else {
        return false;
    };
    stretch.of(s).len() != NUMBER_WIDTH
}

// A clause that is present and is no user's name: over 63 octets, not UTF-8, or holding a zero octet.
fn is_wrong_user(s: &[u8], clause: Option<Stretch>) -> bool
    ensures { result ≡ wrong_user s.now clause }
{
    let Some(stretch) = clause else {
        return false;
    };
    !is_user_name(stretch.of(s))
}

// 9, over the clauses whose values are judged.
pub fn has_wrong_value(
    s: &[u8],
    nt_ver: Option<Stretch>,
    aac: Option<Stretch>,
    user: Option<Stretch>,
) -> bool
    ensures { result ≡ (wrong_number s.now nt_ver || wrong_number s.now aac || wrong_user s.now user) }
{
    is_wrong_number(s, nt_ver) | is_wrong_number(s, aac) | is_wrong_user(s, user)
}

// The number that the octets of NtVer or AAC make.
pub fn clause_number(s: &[u8], stretch: Stretch) -> u32
    requires { is_number (stretch_of s.now stretch) ≡ true }
    ensures { result ≡ little (stretch_of s.now stretch) }
{
    u32_at(stretch.of(s), 0)
}

// The number of a clause, once 9 was judged, or the one that stands for it where it is absent.
pub fn number_or(s: &[u8], clause: Option<Stretch>, absent: u32) -> u32
    requires { wrong_number s.now clause ≡ false }
    ensures { result ≡ unwrap_or (option_map little (octets_of s.now clause)) absent }
{
    let Some(stretch) = clause else {
        return absent;
    };
    clause_number(s, stretch)
}
