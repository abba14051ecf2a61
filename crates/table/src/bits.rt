// The roles and states of the server block: the twelve roles from bit 0, then the four states.
pub const ROLE_PDC: u32 = 0x1;

pub const ROLE_GLOBAL_CATALOG: u32 = 0x2;

pub const ROLE_KDC: u32 = 0x4;

pub const ROLE_TIME_SERVICE: u32 = 0x8;

pub const ROLE_READ_ONLY: u32 = 0x10;

pub const ROLE_GOOD_TIME: u32 = 0x20;

pub const ROLE_WEB_SERVICE: u32 = 0x40;

pub const ROLE_2012: u32 = 0x80;

pub const ROLE_2012_R2: u32 = 0x100;

pub const ROLE_NT4_WANTED: u32 = 0x200;

pub const ROLE_LATER_THAN_2003_R2: u32 = 0x400;

pub const ROLE_LEVEL_2008: u32 = 0x800;

pub const STATE_PAUSED: u32 = 0x1;

pub const STATE_SYNCHRONIZED: u32 = 0x2;

pub const STATE_RPC_INITIALIZED: u32 = 0x4;

pub const STATE_FRS_PAUSED: u32 = 0x8;
