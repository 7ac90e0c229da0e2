// The ids of the tags that are drawn.
pub const MODEL: u32 = 0x0001_0001;

pub const REVISION: u32 = 0x0001_0002;

pub const MAC_ADDRESS: u32 = 0x0001_0003;

pub const SERIAL: u32 = 0x0001_0004;

pub const COMMAND_LINE: u32 = 0x0005_0001;

// No tag of the table.
pub const UNKNOWN: u32 = 7;
