//! The bits of RX_CTRL, which act from the lowest up.

pub const ZERO_ADDRESS: u8 = 0x01;

pub const SWITCH: u8 = 0x02;

pub const CLEAR_LOST: u8 = 0x04;

pub const CLEAR_ERROR: u8 = 0x08;

pub const RESET: u8 = 0x10;
