ghost use Rattle.std.specs.Prelude.{◌≡◌, ◌+◌, ◌≤◌, true, [], ◌∷◌, ◌++◌, length, slice_set, IfSome};
ghost use Rattle.frame.specs.Phase.{goes_on};
ghost use Rattle.frame.specs.Reader.{bytes_of, reading, verdict, stepped};
ghost use Rattle.frame.specs.declared.reader.Phase.TheVariants.{Hunting};
ghost use Rattle.model.specs.Codec.{after_idle};
ghost use Rattle.model.specs.Frames.{length_byte};
ghost use Rattle.model.specs.Reading.{hunting, crc_right, judged, reads};

use crate::checksum::crc;
use crate::header::HEADER_BYTES;
use crate::message::{CRC_BYTES, MAX_DATA};
use crate::reader::{Ending, FrameReader, LONGEST, Phase};

/// Whether the two last bytes are the CRC of those before, low byte first.
// Called once a frame: out of line, so that a loop that calls `hear` for each level stays short.
#[cold]
#[inline(never)]
#[tactic(auto, unfolding(model::specs::Reading::crc_right))]
fn crc_matches(frame: &[u8]) -> bool
    requires { 2 ≤ length frame.now }
    ensures { result ≡ crc_right frame.now }
{
    let [message @ .., low, high] = frame else {
        return false;
    };
    crc(message) == u16::from_le_bytes([*low, *high])
}

/// Judges the bytes read so far at a stop bit: the stop bit, then the length, then the CRC. Nothing while the frame goes on.
fn judge(bytes: &[u8], stop: bool) -> Option<Ending>
    ensures { judged stop bytes.now ≡ verdict result bytes.now }
{
    if !stop {
        return Some(Ending::Broken);
    }
    let [_, _, length, ..] = bytes else {
        return None;
    };
    if bytes.len() == HEADER_BYTES && *length > MAX_DATA {
        return Some(Ending::Broken);
    }
    if bytes.len() != HEADER_BYTES + usize::from(*length) + CRC_BYTES {
        return None;
    }
    if crc_matches(bytes) {
        Some(Ending::Right)
    } else {
        Some(Ending::Broken)
    }
}

impl FrameReader {
    /// A reader that waits on an idle line for a start bit.
    pub fn new() -> FrameReader
        ensures { reading result ≡ after_idle }
    {
        FrameReader {
            bytes: [0; LONGEST],
            count: 0,
            phase: Phase::Between,
        }
    }

    /// A reader that hunts: no frame is open, no byte is read, and every level is passed over.
    pub fn hunting() -> FrameReader
        ensures hunts { reading result ≡ hunting }
        ensures empty { bytes_of result ≡ [] }
    {
        let mut reader = FrameReader::new();
        reader.hunt();
        reader
    }

    /// Leaves the frame that is being read, if any, with its bytes, and hunts.
    pub fn hunt(&mut self)
        ensures hunts { reading self.new ≡ hunting }
        ensures empty { bytes_of self.new ≡ [] }
    {
        self.count = 0;
        self.phase = Phase::Hunting;
    }

    /// The bytes read so far; of a frame that has ended, all of them.
    pub fn bytes(&self) -> &[u8]
        ensures { result.now ≡ bytes_of self.now }
    {
        &self.bytes[0..self.count]
    }

    /// Keeps a byte whose eight bits were read, and hunts: its stop bit has still to be judged.
    pub(crate) fn keep(&mut self, value: u8)
        requires { goes_on self.old.count (length_byte self.old.bytes) ≡ true }
        ensures hunts { self.new.phase ≡ Hunting }
        ensures bytes { self.new.bytes ≡ slice_set self.old.bytes self.old.count value }
        ensures count { self.new.count ≡ self.old.count + 1 }
        ensures more { bytes_of self.new ≡ bytes_of self.old ++ (value ∷ []) }
    {
        self.phase = Phase::Hunting;
        self.bytes[self.count] = value;
        self.count += 1;
    }

    /// A byte whose eight bits were read, at its stop bit: how the frame ends, if it does.
    fn end_byte(&mut self, value: u8, stop: bool) -> Option<Ending>
        requires { goes_on self.old.count (length_byte self.old.bytes) ≡ true }
        ensures step { judged stop (bytes_of self.old ++ (value ∷ [])) ≡ stepped result self.new }
        ensures hunts { IfSome result (λ _. reading self.new ≡ hunting) }
    {
        self.keep(value);
        let ending = judge(self.bytes(), stop);
        if ending.is_none() {
            self.phase = Phase::Between;
        }
        ending
    }

    /// One level of the line: how the frame ends, if it does.
    pub fn hear(&mut self, level: bool) -> Option<Ending>
        ensures step { reads level (reading self.old) ≡ stepped result self.new }
        ensures hunts { IfSome result (λ _. reading self.new ≡ hunting) }
        ensures keeps { reading self.old ≡ hunting → self.new ≡ self.old }
    {
        match self.phase {
            Phase::Hunting => None,
            Phase::Between => {
                if !level {
                    self.phase = Phase::Inside { left: 8, value: 0 };
                }
                None
            }
            Phase::Inside { left: 0, value } => self.end_byte(value, level),
            Phase::Inside { left, value } => {
                self.phase = Phase::Inside {
                    left: left - 1,
                    value: value / 2 + if level { 128 } else { 0 },
                };
                None
            }
        }
    }
}
