ghost use Rattle.std.specs.Prelude.{◌≡◌, ◌<◌, true};
ghost use Rattle.controller.specs.Sending.{sends_within};

use crate::page::PAGE;
use crate::pointer::PagePointer;

mod control;
mod message;
mod transmit;

pub(crate) use transmit::Transmission;

/// No page waits; one waits; or it is being sent, with so many levels driven.
#[derive(Clone, Copy, PartialEq, Eq, Debug)]
enum TransmitState {
    Free,
    Waiting,
    Sending { driven: u16 },
}

/// The sending half of a controller.
#[derive(Clone, Copy)]
pub(crate) struct Transmitter {
    /// The page that TX writes.
    written: [u8; PAGE],
    /// The other page: if one waits, it does.
    other: [u8; PAGE],
    pointer: PagePointer,
    state: TransmitState,
    conflicts: u8,
    pub(crate) tx_cd: bool,
    pub(crate) tx_error: bool,
    ghost few: { conflicts < 16 },
    // a sender stands at a level of its frame
    ghost within: { sends_within state other ≡ true },
}
