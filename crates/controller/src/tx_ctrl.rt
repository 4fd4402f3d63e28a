//! The bits of TX_CTRL, which act from the lowest up.

pub const ZERO_POINTER: u8 = 0x01;

pub const START: u8 = 0x02;

pub const CLEAR_CD: u8 = 0x04;

pub const CLEAR_ERROR: u8 = 0x08;

pub const ABORT: u8 = 0x10;
