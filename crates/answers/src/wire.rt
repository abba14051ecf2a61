// The numbers of pings and replies under their names in MS-ADTS 6.3.1.

// The bits of the version asked, NtVer.
pub const NETLOGON_NT_VERSION_1: u32 = 0x1;

pub const NETLOGON_NT_VERSION_5: u32 = 0x2;

pub const NETLOGON_NT_VERSION_5EX: u32 = 0x4;

pub const NETLOGON_NT_VERSION_5EX_WITH_IP: u32 = 0x8;

pub const NETLOGON_NT_VERSION_WITH_CLOSEST_SITE: u32 = 0x10;

pub const NETLOGON_NT_VERSION_AVOID_NT4EMUL: u32 = 0x01000000;

pub const NETLOGON_NT_VERSION_PDC: u32 = 0x10000000;

pub const NETLOGON_NT_VERSION_LOCAL: u32 = 0x40000000;

// The version in a reply, from the same bits.
pub const NT40_VERSION: u32 = NETLOGON_NT_VERSION_1;

pub const RESPONSE_VERSION: u32 = NETLOGON_NT_VERSION_1 + NETLOGON_NT_VERSION_5;

pub const EX_VERSION: u32 = NETLOGON_NT_VERSION_1 + NETLOGON_NT_VERSION_5EX;

pub const EX_VERSION_WITH_NEXT_SITE: u32 = EX_VERSION + NETLOGON_NT_VERSION_WITH_CLOSEST_SITE;

// The opcodes: of a mailslot message, of the two older forms and of EX.
pub const LOGON_SAM_LOGON_REQUEST: u16 = 18;

pub const LOGON_SAM_LOGON_RESPONSE: u16 = 19;

pub const LOGON_SAM_PAUSE_RESPONSE: u16 = 20;

pub const LOGON_SAM_USER_UNKNOWN: u16 = 21;

pub const LOGON_SAM_LOGON_RESPONSE_EX: u16 = 23;

pub const LOGON_SAM_PAUSE_RESPONSE_EX: u16 = 24;

pub const LOGON_SAM_USER_UNKNOWN_EX: u16 = 25;

// The flags of a RESPONSE or EX reply.
pub const DS_PDC_FLAG: u32 = 0x1;

pub const DS_GC_FLAG: u32 = 0x4;

pub const DS_LDAP_FLAG: u32 = 0x8;

pub const DS_DS_FLAG: u32 = 0x10;

pub const DS_KDC_FLAG: u32 = 0x20;

pub const DS_TIMESERV_FLAG: u32 = 0x40;

pub const DS_CLOSEST_FLAG: u32 = 0x80;

pub const DS_WRITABLE_FLAG: u32 = 0x100;

pub const DS_GOOD_TIMESERV_FLAG: u32 = 0x200;

pub const DS_NDNC_FLAG: u32 = 0x400;

pub const DS_SELECT_SECRET_DOMAIN_6_FLAG: u32 = 0x800;

pub const DS_FULL_SECRET_DOMAIN_6_FLAG: u32 = 0x1000;

pub const DS_WS_FLAG: u32 = 0x2000;

pub const DS_DS_8_FLAG: u32 = 0x4000;

pub const DS_DS_9_FLAG: u32 = 0x8000;

// Fixed fields: the second number of an EX, the second GUID of a RESPONSE, and the tokens that end every reply.
pub const SBZ: u16 = 0;

pub const NULL_GUID: [u8; 16] = [0; 16];

pub const LM_NT_TOKEN: u16 = 0xFFFF;

pub const LM20_TOKEN: u16 = 0xFFFF;

// The octets of the version and the two tokens.
pub const ENDING_SIZE: usize = 8;

// Before and after the four octets of the EX form's address.
pub const DC_SOCK_ADDR_SIZE: u8 = 0x10;

pub const SIN_FAMILY: u32 = 2;

pub const SIN_ZERO: [u8; 8] = [0; 8];
