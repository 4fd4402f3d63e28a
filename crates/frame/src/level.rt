ghost use Rattle.std.specs.Prelude.{◌≡◌, true, [], ◌∷◌, slice_index_or};
ghost use Rattle.frame.specs.Level.{ByteAt};
ghost use Rattle.model.specs.Frames.{framed, frame_levels};
ghost use Rattle.model.specs.Levels.{levels};

use crate::checksum::crc;
use crate::message::CRC_BYTES;
use std::array;

/// The levels of a byte: start bit, eight bits with the lowest first, stop bit.
pub const BYTE_LEVELS: usize = 10;

/// A level of a byte, and 1 behind its stop bit.
fn byte_level(byte: u8, place: usize) -> bool
    ensures { result ≡ slice_index_or (levels (byte ∷ [])) place true }
{
    match place {
        0 => false,
        1..=8 => (byte >> (place - 1)) % 2 == 1,
        _ => true,
    }
}

/// All ten levels of a byte.
pub(crate) fn byte_levels(byte: u8) -> [bool; BYTE_LEVELS]
    ensures { result ≡ levels (byte ∷ []) }
{
    array::from_fn(|place| byte_level(byte, place))
}

/// A byte of the frame that carries a message; the CRC stands behind the message, low byte first.
fn frame_byte(message: &[u8], index: usize) -> Option<u8>
    ensures { ByteAt (framed message.now) index result }
{
    match index.checked_sub(message.len()) {
        None => message.get(index).copied(),
        Some(behind) if behind < CRC_BYTES => crc(message).to_le_bytes().get(behind).copied(),
        Some(_) => None,
    }
}

/// A level of the frame that carries a message, and 1 behind its last stop bit.
pub fn frame_level(message: &[u8], place: usize) -> bool
    ensures { result ≡ slice_index_or (frame_levels message.now) place true }
{
    match frame_byte(message, place / BYTE_LEVELS) {
        Some(byte) => byte_level(byte, place % BYTE_LEVELS),
        None => true,
    }
}
