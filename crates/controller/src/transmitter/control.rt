ghost use Rattle.std.specs.Prelude.{◌≡◌, true};
ghost use Rattle.controller.specs.Transmitter.{transmitter};
ghost use Rattle.model.specs.Controller.{is_free, new_transmitter};
ghost use Rattle.model.specs.RegisterRule.{stores, starts, aborts, tx_control, starts_too_long};

use crate::bits::has;
use crate::page::PAGE;
use crate::pointer::PagePointer;
use crate::transmitter::message::LENGTH_AT;
use crate::transmitter::{TransmitState, Transmitter};
use crate::tx_ctrl;
use frame::MAX_DATA;
use std::mem;

impl Transmitter {
    pub(crate) fn new() -> Transmitter
        ensures { transmitter result ≡ new_transmitter }
    {
        Transmitter {
            written: [0; PAGE],
            other: [0; PAGE],
            pointer: PagePointer::default(),
            state: TransmitState::Free,
            conflicts: 0,
            tx_cd: false,
            tx_error: false,
        }
    }

    /// No page waits.
    pub(crate) fn is_free(&self) -> bool
        ensures { result ≡ is_free (transmitter self.now).state }
    {
        self.state == TransmitState::Free
    }

    /// Stores a byte in the written page at the write pointer, which steps on.
    pub(crate) fn store(&mut self, byte: u8)
        ensures { transmitter self.new ≡ stores byte (transmitter self.old) }
    {
        self.written[usize::from(self.pointer.advance())] = byte;
    }

    /// If no page waits, the written page does, and the other is written next.
    fn start(&mut self)
        ensures { transmitter self.new ≡ starts true (transmitter self.old) }
    {
        if self.is_free() {
            mem::swap(&mut self.written, &mut self.other);
            self.pointer.zero();
            self.state = TransmitState::Waiting;
        }
    }

    /// No page waits any more: it was sent, given up or aborted.
    pub(crate) fn free(&mut self)
        ensures { transmitter self.new ≡ aborts true (transmitter self.old) }
    {
        self.state = TransmitState::Free;
        self.conflicts = 0;
    }

    /// A byte written to TX_CTRL: its bits act from bit 0 up.
    #[tactic(auto, unfolding(model::specs::RegisterRule::tx_control))]
    pub(crate) fn control(&mut self, value: u8)
        ensures { transmitter self.new ≡ tx_control value (transmitter self.old) }
    {
        if has(value, tx_ctrl::ZERO_POINTER) {
            self.pointer.zero();
        }
        if has(value, tx_ctrl::START) {
            self.start();
        }
        if has(value, tx_ctrl::CLEAR_CD) {
            self.tx_cd = false;
        }
        if has(value, tx_ctrl::CLEAR_ERROR) {
            self.tx_error = false;
        }
        if has(value, tx_ctrl::ABORT) {
            self.free();
        }
    }

    /// A START that would be taken with a length byte that no frame has.
    pub(crate) fn starts_too_long(&self, value: u8) -> bool
        ensures { result ≡ starts_too_long value (transmitter self.now) }
    {
        has(value, tx_ctrl::START) && self.is_free() && self.written[LENGTH_AT] > MAX_DATA
    }
}
