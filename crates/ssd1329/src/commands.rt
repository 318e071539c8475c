// The opcodes that the controller takes, with the data sheet's names.
// Numbers, since they go over the wire as they are.
pub const SET_COLUMNS: u8 = 0x15;

pub const SET_LINES: u8 = 0x75;

pub const SET_REMAP: u8 = 0xA0;

pub const SET_START_LINE: u8 = 0xA1;

pub const SET_OFFSET: u8 = 0xA2;

pub const SET_MUX: u8 = 0xA8;

pub const SLEEP: u8 = 0xAE;

pub const WAKE: u8 = 0xAF;

pub const NOTHING: u8 = 0xE3;
