ghost use Rattle.std.specs.Prelude.{◌≡◌, true, length};
ghost use Rattle.frame.specs.Phase.{sound};

use crate::header::HEADER_BYTES;
use crate::message::{CRC_BYTES, MAX_DATA};

mod hear;
mod open;
mod read;

pub use read::{Reading, read_frame};

/// The bytes of the longest frame.
const LONGEST: usize = HEADER_BYTES + MAX_DATA as usize + CRC_BYTES;

/// How a frame has ended.
#[derive(Clone, Copy, PartialEq, Eq, Debug)]
pub enum Ending {
    Right,
    Broken,
}

/// Where a receiver stands in a frame.
#[derive(Clone, Copy)]
enum Phase {
    Hunting,
    Between,
    /// Inside a byte, with `left` bits before the stop bit; those that came are the highest of `value`.
    Inside { left: u8, value: u8 },
}

/// Reads a frame level by level, as a receiver does.
#[derive(Clone, Copy)]
pub struct FrameReader {
    bytes: [u8; LONGEST],
    count: usize,
    phase: Phase,
    ghost sized: { length bytes ≡ 258 },
    ghost fits: { sound phase count bytes ≡ true },
}
