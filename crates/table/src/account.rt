// An account, by its record's octets.
#![tactic(auto, unfolding(crate::specs::Account::account_of))]

ghost use Rattle.std.specs.Prelude.{◌≡◌};
ghost use Rattle.table.specs.Account.{account_of};

use crate::ContextNumber;
use crate::field::{TextField, text_in, u16_in, u32_in};
use crate::record::RecordFormat;
use octets::name_rule::USER_NAME_MOST;

pub const FORMAT: RecordFormat = RecordFormat {
    kind: 4,
    count: 6,
    width: 84,
};

const CONTEXT: usize = 0;

pub const CONTROL: usize = 4;

pub const NAME: TextField = TextField {
    offset: 8,
    room: USER_NAME_MOST,
};

pub fn context(octets: &[u8]) -> ContextNumber
    ensures { result ≡ (account_of octets.now).context }
{
    ContextNumber(u16_in(octets, CONTEXT))
}

pub fn control(octets: &[u8]) -> u32
    ensures { result ≡ (account_of octets.now).control }
{
    u32_in(octets, CONTROL)
}

pub fn name(octets: &[u8]) -> &[u8]
    ensures { result.now ≡ (account_of octets.now).name }
{
    text_in(octets, NAME)
}
