ghost use Rattle.std.specs.Prelude.{◌≡◌, [], ◌∷◌, Some, IfOk, MatchResult};
ghost use Rattle.std.specs.List.{flat_map};
ghost use Rattle.frame.specs.Message.{Fault, says};
ghost use Rattle.frame.specs.declared.message.MessageError.TheVariants.{NoMemory};
ghost use Rattle.model.specs.Frames.{Message, framed, frame_levels};
ghost use Rattle.model.specs.Levels.{levels as levels_of};

use crate::checksum::crc;
use crate::header::Header;
use crate::level::{BYTE_LEVELS, byte_levels};
use std::alloc::{AllocError, Global};
use std::error::Error;
use std::fmt;

/// The most data bytes that a frame carries.
pub const MAX_DATA: u8 = 253;

/// The bytes of a CRC.
pub const CRC_BYTES: usize = 2;

/// Why bytes have no frame; the first reason that fits.
#[derive(Clone, Copy, PartialEq, Eq, Debug)]
pub enum MessageError {
    /// There are fewer than three bytes.
    NoHeader,
    /// The length byte is above 253.
    TooLong,
    /// The length byte is not the number of bytes behind the header.
    WrongLength,
    NoMemory,
}

impl fmt::Display for MessageError {
    ghost output = { λ e. Some (says e) };

    fn fmt<W: fmt::Write>(&self, f: &mut fmt::Formatter<W>) -> fmt::Result {
        match self {
            MessageError::NoHeader => f.write_str("no header"),
            MessageError::TooLong => f.write_str("length byte above 253"),
            MessageError::WrongLength => f.write_str("length byte and data differ"),
            MessageError::NoMemory => f.write_str("no memory"),
        }
    }
}

impl Error for MessageError {}

impl From<AllocError> for MessageError {
    ghost from_gives = { λ _ r. r ≡ NoMemory };

    fn from(_e: AllocError) -> MessageError {
        MessageError::NoMemory
    }
}

/// Whether bytes are a message: source, destination, length and as many data bytes.
fn check(message: &[u8]) -> Result<(), MessageError>
    ensures { MatchResult result (λ _. Message message.now) (Fault message.now) }
{
    let Some((header, rest)) = Header::split(message) else {
        return Err(MessageError::NoHeader);
    };
    if header.length > MAX_DATA {
        return Err(MessageError::TooLong);
    }
    if rest.len() != usize::from(header.length) {
        return Err(MessageError::WrongLength);
    }
    Ok(())
}

/// The levels of a message and its CRC, byte by byte.
fn levels_of_frame(heap: Global, message: &[u8]) -> Result<Vec<bool>, AllocError>
    requires { Message message.now }
    ensures { IfOk result (λ v. v.items ≡ flat_map (λ byte. levels_of (byte ∷ [])) (framed message.now)) }
{
    let mut levels = Vec::with_capacity(heap, BYTE_LEVELS * (message.len() + CRC_BYTES))?;
    for byte in message.iter().chain(&crc(message).to_le_bytes()) {
        levels.extend_from_slice(&byte_levels(*byte))?;
    }
    Ok(levels)
}

/// The levels of the frame that carries a message.
pub fn frame_levels(heap: Global, message: &[u8]) -> Result<Vec<bool>, MessageError>
    ensures { MatchResult result (λ v. Message message.now × (v.items ≡ frame_levels message.now)) (Fault message.now) }
{
    check(message)?;
    Ok(levels_of_frame(heap, message)?)
}
