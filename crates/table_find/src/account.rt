// What is asked of an account, by its record's octets.
ghost use Rattle.std.specs.Prelude.{◌≡◌};
ghost use Rattle.account_names.specs.AccountName.{same_account_name};
ghost use Rattle.table.specs.Account.{account_of};
ghost use Rattle.table_find.specs.Find.{is_account_of};
ghost use Rattle.table_find.specs.LogOn.{may_log_on};

use account_names::compare::{first_letters_differ, same_account_name};
use octets::number::has_bits;
use table::{ContextNumber, account};

// A control bit, under its name in MS-SAMR 2.2.1.12.
const USER_ACCOUNT_DISABLED: u32 = 0x1;

// The kinds of account that an AAC can allow.
const ACCOUNT_KINDS: u32 = 0x1D8;

// Whether a name held is the one asked for: most differ in their first letters, which costs less to see.
fn is_named(held: &[u8], asked: &[u8]) -> bool
    ensures { result ≡ same_account_name held.now asked.now }
{
    !first_letters_differ(held, asked) && same_account_name(held, asked)
}

// Whether it is the account of a name in a context.
pub fn is_account(octets: &[u8], context: ContextNumber, name: &[u8]) -> bool
    ensures { result ≡ is_account_of context name.now (account_of octets.now) }
{
    account::context(octets) == context && is_named(account::name(octets), name)
}

// Whether the account is not disabled and of a kind that AAC allows.
#[tactic(auto, unfolding(crate::specs::LogOn::may_log_on))]
pub fn may_log_on(octets: &[u8], aac: u32) -> bool
    ensures { result ≡ may_log_on aac (account_of octets.now) }
{
    let control = account::control(octets);
    !has_bits(control, USER_ACCOUNT_DISABLED) & has_bits(aac & control, ACCOUNT_KINDS)
}
