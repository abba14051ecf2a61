// Document 01, "Choosing the answer": the flags, each set by a role of the server or by the ping.
ghost use Rattle.std.specs.Prelude.{◌≡◌, ◌≤◌};
ghost use Rattle.choose.specs.Choose.{flag};
ghost use Rattle.choose.specs.Internal.Flags.{service_flags, secret_flags, release_flags, ex_flags_by, flags_by};

use answers::Form;
use answers::wire::{
    DS_CLOSEST_FLAG, DS_DS_8_FLAG, DS_DS_9_FLAG, DS_DS_FLAG, DS_FULL_SECRET_DOMAIN_6_FLAG,
    DS_GC_FLAG, DS_GOOD_TIMESERV_FLAG, DS_KDC_FLAG, DS_LDAP_FLAG, DS_NDNC_FLAG, DS_PDC_FLAG,
    DS_SELECT_SECRET_DOMAIN_6_FLAG, DS_TIMESERV_FLAG, DS_WRITABLE_FLAG, DS_WS_FLAG,
};
use octets::number::has_bits;
use table::bits::{
    ROLE_2012, ROLE_2012_R2, ROLE_GLOBAL_CATALOG, ROLE_GOOD_TIME, ROLE_KDC,
    ROLE_LATER_THAN_2003_R2, ROLE_PDC, ROLE_READ_ONLY, ROLE_TIME_SERVICE, ROLE_WEB_SERVICE,
};

fn flag_if(set: bool, bit: u32) -> u32
    ensures { (result ≡ flag set bit) × (result ≤ bit) }
{
    if set {
        return bit;
    }
    0
}

// What the server offers, LDAP and DS always.
fn service_flags(roles: u32) -> u32
    ensures { (result ≡ service_flags roles) × (result ≤ 0x27D) }
{
    flag_if(has_bits(roles, ROLE_PDC), DS_PDC_FLAG)
        + flag_if(has_bits(roles, ROLE_GLOBAL_CATALOG), DS_GC_FLAG)
        + DS_LDAP_FLAG
        + DS_DS_FLAG
        + flag_if(has_bits(roles, ROLE_KDC), DS_KDC_FLAG)
        + flag_if(has_bits(roles, ROLE_TIME_SERVICE), DS_TIMESERV_FLAG)
        + flag_if(has_bits(roles, ROLE_GOOD_TIME), DS_GOOD_TIMESERV_FLAG)
}

// Writable or read-only, and which secrets the server has.
fn secret_flags(roles: u32) -> u32
    ensures { (result ≡ secret_flags roles) × (result ≤ 0x1900) }
{
    let read_only = has_bits(roles, ROLE_READ_ONLY);
    let later = has_bits(roles, ROLE_LATER_THAN_2003_R2);
    flag_if(!read_only, DS_WRITABLE_FLAG)
        + flag_if(read_only, DS_SELECT_SECRET_DOMAIN_6_FLAG)
        + flag_if(!read_only & later, DS_FULL_SECRET_DOMAIN_6_FLAG)
}

// What later releases offer.
fn release_flags(roles: u32) -> u32
    ensures { (result ≡ release_flags roles) × (result ≤ 0xE000) }
{
    flag_if(has_bits(roles, ROLE_WEB_SERVICE), DS_WS_FLAG)
        + flag_if(has_bits(roles, ROLE_2012), DS_DS_8_FLAG)
        + flag_if(has_bits(roles, ROLE_2012_R2), DS_DS_9_FLAG)
}

fn ex_flags(roles: u32, same_site: bool, application: bool) -> u32
    ensures { result ≡ ex_flags_by roles same_site application }
{
    service_flags(roles)
        + flag_if(same_site, DS_CLOSEST_FLAG)
        + secret_flags(roles)
        + flag_if(application, DS_NDNC_FLAG)
        + release_flags(roles)
}

// The flags of a form, by the server's roles, whether the client is in the server's site, and whether DnsDomain names an application context.
pub fn flags_of(form: Form, roles: u32, same_site: bool, application: bool) -> u32
    ensures { result ≡ flags_by form roles same_site application }
{
    match form {
        Form::Nt40 => 0,
        Form::Response => flag_if(has_bits(roles, ROLE_PDC), DS_PDC_FLAG) + DS_DS_FLAG,
        Form::Ex => ex_flags(roles, same_site, application),
    }
}
