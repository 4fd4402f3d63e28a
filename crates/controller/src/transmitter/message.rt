ghost use Rattle.std.specs.Prelude.{◌≡◌, ◌≤◌, length};
ghost use Rattle.controller.specs.Transmitter.{transmitter};
ghost use Rattle.model.specs.Frames.{message as message_in};

use crate::page::PAGE;
use crate::transmitter::Transmitter;
use frame::HEADER_BYTES;

/// Where the length byte of a message stands.
pub(crate) const LENGTH_AT: usize = 2;

impl Transmitter {
    /// The message in the page that waits, if one does.
    pub(crate) fn message(&self) -> &[u8]
        ensures is { result.now ≡ message_in (transmitter self.now).other }
        ensures short { length result.now ≤ 256 }
    {
        let end = HEADER_BYTES + usize::from(self.other[LENGTH_AT]);
        &self.other[..end.min(PAGE)]
    }
}
