// What the name of a user and of an account must be.
ghost use Rattle.std.specs.Prelude.{◌≡◌};
ghost use Rattle.unicode_text.specs.UserName.{is_user_name, is_account_name};

use crate::utf8::is_utf8;
use octets::name_rule::USER_NAME_MOST;
use octets::text::lacks;

pub fn is_user_name(s: &[u8]) -> bool
    ensures { result ≡ is_user_name s.now }
{
    if USER_NAME_MOST < s.len() {
        return false;
    }
    if !is_utf8(s) {
        return false;
    }
    lacks(s, 0)
}

pub fn is_account_name(s: &[u8]) -> bool
    ensures { result ≡ is_account_name s.now }
{
    if s.len() < 1 {
        return false;
    }
    is_user_name(s)
}
