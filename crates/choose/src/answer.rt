// Document 01, "Choosing the answer": the form, document 01's t, the user and the opcode.
ghost use Rattle.std.specs.Prelude.{◌≡◌};
ghost use Rattle.octets.specs.Lists.{cut};
ghost use Rattle.filter_read.specs.Internal.RawPing.{ping_at};
ghost use Rattle.table.specs.Context.{context_of, context_format};
ghost use Rattle.table.specs.Server.{server_of};
ghost use Rattle.table.specs.Table.{table_from};
ghost use Rattle.choose.specs.Choose.{form_of, is_held_back, is_user_unknown, opcode_of};

use answers::Form;
use answers::wire::{
    LOGON_SAM_LOGON_RESPONSE, LOGON_SAM_LOGON_RESPONSE_EX, LOGON_SAM_PAUSE_RESPONSE,
    LOGON_SAM_PAUSE_RESPONSE_EX, LOGON_SAM_USER_UNKNOWN, LOGON_SAM_USER_UNKNOWN_EX,
    NETLOGON_NT_VERSION_5, NETLOGON_NT_VERSION_5EX, NETLOGON_NT_VERSION_5EX_WITH_IP,
    NETLOGON_NT_VERSION_AVOID_NT4EMUL, NETLOGON_NT_VERSION_LOCAL, NETLOGON_NT_VERSION_PDC,
};
use filter_read::ping::RawPing;
use octets::number::has_bits;
use octets::part::part;
use table::bits::{
    ROLE_NT4_WANTED, ROLE_PDC, STATE_FRS_PAUSED, STATE_PAUSED, STATE_RPC_INITIALIZED,
    STATE_SYNCHRONIZED,
};
use table::{account, context, server};
use table_find::account::may_log_on;
use table_lookup::lookup::account_by_name;
use table_whole::image::AcceptedImage;

// The reply's form, by the body of the server block and the version asked.
fn form_of(body: &[u8], version: u32) -> Form
    ensures { result ≡ form_of (server_of body.now) version }
{
    let roles = server::roles(body);
    if has_bits(roles, ROLE_NT4_WANTED) & !has_bits(version, NETLOGON_NT_VERSION_AVOID_NT4EMUL) {
        return Form::Nt40;
    }
    if has_bits(version, NETLOGON_NT_VERSION_5EX)
        | has_bits(version, NETLOGON_NT_VERSION_5EX_WITH_IP)
    {
        return Form::Ex;
    }
    if has_bits(version, NETLOGON_NT_VERSION_5) {
        return Form::Response;
    }
    Form::Nt40
}

// The form of the reply to a ping.
pub fn form_for(image: &AcceptedImage, ping: RawPing) -> Form
    ensures { result ≡ form_of (table_from image.now).server ping.version }
{
    form_of(server::server_of(image.octets()), ping.version)
}

// Whether document 01's t is 1.
pub fn is_held_back(body: &[u8], version: u32) -> bool
    ensures { result ≡ is_held_back (server_of body.now) version }
{
    let roles = server::roles(body);
    let state = server::state(body);
    let not_primary = !has_bits(version, NETLOGON_NT_VERSION_PDC) | !has_bits(roles, ROLE_PDC);
    let paused = has_bits(state, STATE_PAUSED) & not_primary;
    let not_local = !has_bits(version, NETLOGON_NT_VERSION_LOCAL);
    let not_initialized = !has_bits(state, STATE_RPC_INITIALIZED) & not_local;
    let not_synchronized = !has_bits(state, STATE_SYNCHRONIZED);
    paused | not_synchronized | not_initialized | has_bits(state, STATE_FRS_PAUSED)
}

// Whether a user was asked for, empty or not, whom the context at an offset does not know.
pub fn is_user_unknown(image: &AcceptedImage, source: &[u8], ping: RawPing, context: usize) -> bool
    ensures { result ≡ is_user_unknown (table_from image.now) (context_of (cut image.now context context_format.width)) (ping_at source.now ping) }
{
    let Some(user) = ping.user else {
        return false;
    };
    let octets = image.octets();
    let number = context::number(part(octets, context, context::FORMAT.width));
    match account_by_name(image, number, user.of(source)) {
        Some(offset) => !may_log_on(part(octets, offset, account::FORMAT.width), ping.aac),
        None => true,
    }
}

fn older_opcode(held_back: bool, unknown: bool) -> u16
    ensures { result ≡ opcode_of Form.Nt40 held_back unknown }
{
    if held_back {
        return LOGON_SAM_PAUSE_RESPONSE;
    }
    if unknown {
        return LOGON_SAM_USER_UNKNOWN;
    }
    LOGON_SAM_LOGON_RESPONSE
}

fn ex_opcode(held_back: bool, unknown: bool) -> u16
    ensures { result ≡ opcode_of Form.Ex held_back unknown }
{
    if held_back {
        return LOGON_SAM_PAUSE_RESPONSE_EX;
    }
    if unknown {
        return LOGON_SAM_USER_UNKNOWN_EX;
    }
    LOGON_SAM_LOGON_RESPONSE_EX
}

pub fn opcode_of(form: Form, held_back: bool, unknown: bool) -> u16
    ensures { result ≡ opcode_of form held_back unknown }
{
    match form {
        Form::Nt40 => older_opcode(held_back, unknown),
        Form::Response => older_opcode(held_back, unknown),
        Form::Ex => ex_opcode(held_back, unknown),
    }
}
