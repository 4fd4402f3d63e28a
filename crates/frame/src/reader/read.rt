ghost use Rattle.std.specs.Prelude.{length, IfOk};
ghost use Rattle.frame.specs.Read.{ReadAs};
ghost use Rattle.frame.specs.Reader.{reading, HeardAs};
ghost use Rattle.model.specs.Codec.{Codec, after_idle};
ghost use Rattle.model.specs.Disturbance.{NeverAnother};
ghost use Rattle.model.specs.Reading.{heard};

use crate::reader::{Ending, FrameReader};
use std::alloc::{AllocError, Global};

/// A frame that has ended: how, its bytes, and the number of levels up to its end.
#[derive(Drop, Debug)]
pub struct Reading {
    pub ending: Ending,
    pub bytes: Vec<u8>,
    pub levels: usize,
}

impl FrameReader {
    /// Hears levels until the frame ends: how it did, and how many were heard. Nothing if it has not ended.
    fn hear_all(&mut self, levels: &[bool]) -> Option<(Ending, usize)>
        ensures { HeardAs (heard (reading self.old) levels.now) (length levels.now) self.new result }
    {
        for (i, level) in levels.iter().enumerate() {
            if let Some(ending) = self.hear(*level) {
                return Some((ending, i + 1));
            }
        }
        None
    }
}

/// Reads levels as a receiver does that was idle before the first.
fn read(heap: Global, levels: &[bool]) -> Result<Option<Reading>, AllocError>
    ensures { IfOk result (ReadAs (length levels.now) (heard after_idle levels.now)) }
{
    let mut reader = FrameReader::new();
    let Some((ending, levels)) = reader.hear_all(levels) else {
        return Ok(None);
    };
    let bytes = Vec::from_slice(heap, reader.bytes())?;
    Ok(Some(Reading {
        ending,
        bytes,
        levels,
    }))
}

/// What levels read as to a receiver that was idle before the first. Nothing if the frame has not ended.
///
/// The levels of a message's frame read as that frame, at the last level and at none before; levels without
/// gaps that read as right are those of the frame that was read; and a frame's levels with a short burst of
/// pulls never read as another frame.
pub fn read_frame(heap: Global, levels: &[bool]) -> Result<Option<Reading>, AllocError>
    ensures reads { IfOk result (ReadAs (length levels.now) (heard after_idle levels.now)) }
    ensures codec { Codec }
    ensures disturbed { NeverAnother }
{
    read(heap, levels)
}
