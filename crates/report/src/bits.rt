// Flags and opcodes under their names in MS-ADTS 6.3.1.
use answers::wire::{
    DS_CLOSEST_FLAG, DS_DS_8_FLAG, DS_DS_9_FLAG, DS_DS_FLAG, DS_FULL_SECRET_DOMAIN_6_FLAG,
    DS_GC_FLAG, DS_GOOD_TIMESERV_FLAG, DS_KDC_FLAG, DS_LDAP_FLAG, DS_NDNC_FLAG, DS_PDC_FLAG,
    DS_SELECT_SECRET_DOMAIN_6_FLAG, DS_TIMESERV_FLAG, DS_WRITABLE_FLAG, DS_WS_FLAG,
    LOGON_SAM_LOGON_RESPONSE, LOGON_SAM_LOGON_RESPONSE_EX, LOGON_SAM_PAUSE_RESPONSE,
    LOGON_SAM_PAUSE_RESPONSE_EX, LOGON_SAM_USER_UNKNOWN, LOGON_SAM_USER_UNKNOWN_EX,
};
use std::io;
use std::io::Write;

const FLAGS: [(u32, &str); 15] = [
    (DS_PDC_FLAG, "DS_PDC_FLAG"),
    (DS_GC_FLAG, "DS_GC_FLAG"),
    (DS_LDAP_FLAG, "DS_LDAP_FLAG"),
    (DS_DS_FLAG, "DS_DS_FLAG"),
    (DS_KDC_FLAG, "DS_KDC_FLAG"),
    (DS_TIMESERV_FLAG, "DS_TIMESERV_FLAG"),
    (DS_CLOSEST_FLAG, "DS_CLOSEST_FLAG"),
    (DS_WRITABLE_FLAG, "DS_WRITABLE_FLAG"),
    (DS_GOOD_TIMESERV_FLAG, "DS_GOOD_TIMESERV_FLAG"),
    (DS_NDNC_FLAG, "DS_NDNC_FLAG"),
    (
        DS_SELECT_SECRET_DOMAIN_6_FLAG,
        "DS_SELECT_SECRET_DOMAIN_6_FLAG",
    ),
    (DS_FULL_SECRET_DOMAIN_6_FLAG, "DS_FULL_SECRET_DOMAIN_6_FLAG"),
    (DS_WS_FLAG, "DS_WS_FLAG"),
    (DS_DS_8_FLAG, "DS_DS_8_FLAG"),
    (DS_DS_9_FLAG, "DS_DS_9_FLAG"),
];

// The bits that are no flag of document 01's: bit 1, and those from bit 16 on.
const UNNAMED_FLAGS: u32 = 0xFFFF0002;

// The line of a reply's flags.
pub fn say_flags<W: Write>(to: &mut W, flags: u32) -> io::Result<()> {
    write!(to, "flags     {flags:08x}")?;
    for (flag, name) in FLAGS {
        if flags & flag != 0 {
            write!(to, " {name}")?;
        }
    }
    let unnamed = flags & UNNAMED_FLAGS;
    if unnamed != 0 {
        write!(to, ", without a name {unnamed:08x}")?;
    }
    writeln!(to)
}

// A reading has no other opcode.
fn opcode_name(opcode: u16) -> &'static str {
    match opcode {
        LOGON_SAM_LOGON_RESPONSE => "LOGON_SAM_LOGON_RESPONSE",
        LOGON_SAM_PAUSE_RESPONSE => "LOGON_SAM_PAUSE_RESPONSE",
        LOGON_SAM_USER_UNKNOWN => "LOGON_SAM_USER_UNKNOWN",
        LOGON_SAM_LOGON_RESPONSE_EX => "LOGON_SAM_LOGON_RESPONSE_EX",
        LOGON_SAM_PAUSE_RESPONSE_EX => "LOGON_SAM_PAUSE_RESPONSE_EX",
        LOGON_SAM_USER_UNKNOWN_EX => "LOGON_SAM_USER_UNKNOWN_EX",
        _ => "",
    }
}

// The line of a reply's opcode.
pub fn say_opcode<W: Write>(to: &mut W, opcode: u16) -> io::Result<()> {
    write!(to, "opcode    {opcode}")?;
    let name = opcode_name(opcode);
    if !name.is_empty() {
        write!(to, " {name}")?;
    }
    writeln!(to)
}
