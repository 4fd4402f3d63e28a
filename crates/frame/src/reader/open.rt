ghost use Rattle.std.specs.Prelude.{◌≡◌, []};
ghost use Rattle.frame.specs.Reader.{bytes_of, reading};
ghost use Rattle.model.specs.Reading.{hunting, bytes_read, opened};

use crate::reader::{FrameReader, Phase};

impl FrameReader {
    /// What a receiver that was idle makes of a level: a 0 is the start bit of a frame, and at a 1 it hunts.
    pub fn open(&mut self, level: bool)
        ensures opens { reading self.new ≡ opened level }
        ensures empty { bytes_of self.new ≡ [] }
    {
        self.count = 0;
        self.phase = if level {
            Phase::Hunting
        } else {
            Phase::Inside { left: 8, value: 0 }
        };
    }

    /// Ends the frame that is being read, if any, and hunts; the bytes whose eight bits were read stay.
    pub fn close(&mut self)
        ensures hunts { reading self.new ≡ hunting }
        ensures bytes { bytes_of self.new ≡ bytes_read (reading self.old) }
    {
        match self.phase {
            Phase::Hunting => self.hunt(),
            Phase::Inside { left: 0, value } => self.keep(value),
            _ => self.phase = Phase::Hunting,
        }
    }
}
