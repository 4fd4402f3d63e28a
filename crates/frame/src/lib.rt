//! Code on bytes, levels and frames.
#![tactic(auto)]

mod arbitration;
mod checksum;
mod filter;
mod header;
mod level;
mod message;
mod reader;

pub use arbitration::{Arbitration, arbitrate, reversed_source};
pub use checksum::crc;
pub use filter::Filters;
pub use header::{HEADER_BYTES, Header};
pub use level::{BYTE_LEVELS, frame_level};
pub use message::{CRC_BYTES, MAX_DATA, MessageError, frame_levels};
pub use reader::{Ending, FrameReader, Reading, read_frame};

#[cfg(test)]
mod tests;
