//! Bytes and levels as text.

use frame::BYTE_LEVELS;
use std::alloc::{AllocError, Global};
use std::fmt::Write;

/// Bytes as two hex digits each.
pub(crate) fn hex(heap: Global, bytes: &[u8]) -> Result<String, AllocError> {
    let mut text = String::new(heap);
    for byte in bytes {
        if !text.is_empty() {
            text.push(' ')?;
        }
        write!(text, "{byte:02X}")?;
    }
    Ok(text)
}

/// The ten levels of a byte, drawn: start bit, bits, stop bit.
fn push_byte(text: &mut String, levels: &[bool]) -> Result<(), AllocError> {
    for (place, level) in levels.iter().enumerate() {
        if place == 1 || place == BYTE_LEVELS - 1 {
            text.push('|')?;
        }
        text.push(if *level { '‾' } else { '_' })?;
    }
    Ok(())
}

/// Levels drawn byte by byte.
pub(crate) fn line(heap: Global, levels: &[bool]) -> Result<String, AllocError> {
    let mut text = String::new(heap);
    for byte in levels.chunks(BYTE_LEVELS) {
        if !text.is_empty() {
            text.push_str("  ")?;
        }
        push_byte(&mut text, byte)?;
    }
    Ok(text)
}
