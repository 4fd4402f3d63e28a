ghost use Rattle.std.specs.Prelude.{◌≡◌, true, nat_le, slice_index};
ghost use Rattle.controller.specs.Receiver.{receiver};
ghost use Rattle.model.specs.Controller.{read_page, new_receiver};
ghost use Rattle.model.specs.RegisterRule.{addressed, stepped, is_ready, switches, resets, rx_control};

use crate::bits::has;
use crate::pointer::PagePointer;
use crate::ring::PageRing;
use crate::rx_ctrl;
use frame::FrameReader;

mod listen;
mod look;
mod restore;

/// The receiving half of a controller.
#[derive(Clone, Copy)]
pub(crate) struct Receiver {
    ring: PageRing,
    /// RX_ADDR
    pointer: PagePointer,
    pub(crate) rx_lost: bool,
    pub(crate) rx_error: bool,
    /// Holds a frame until it ends, so that no page is touched before.
    reader: FrameReader,
    /// Levels 1 since the last 0.
    ones: u16,
}

impl Receiver {
    pub(crate) fn new() -> Receiver
        ensures { receiver result ≡ new_receiver }
    {
        Receiver {
            ring: PageRing::new(),
            pointer: PagePointer::default(),
            rx_lost: false,
            rx_error: false,
            reader: FrameReader::hunting(),
            ones: 0,
        }
    }

    pub(crate) fn address(&self) -> u8
        ensures { result ≡ (receiver self.now).address }
    {
        self.pointer.place()
    }

    pub(crate) fn set_address(&mut self, address: u8)
        ensures { receiver self.new ≡ addressed address (receiver self.old) }
    {
        self.pointer = PagePointer::at(address);
    }

    /// The byte of the read page at RX_ADDR, which steps on.
    pub(crate) fn next_byte(&mut self) -> u8
        ensures byte { result ≡ slice_index (read_page (receiver self.old).ring).bytes (receiver self.old).address }
        ensures after { receiver self.new ≡ stepped (receiver self.old) }
    {
        self.ring.byte(self.pointer.advance())
    }

    pub(crate) fn is_ready(&self) -> bool
        ensures { result ≡ is_ready (receiver self.now).ring }
    {
        self.ring.is_ready()
    }

    /// The line was 1 for so many bit times.
    pub(crate) fn has_waited(&self, wait: u16) -> bool
        ensures { result ≡ nat_le wait (receiver self.now).ones }
    {
        wait <= self.ones
    }

    pub(crate) fn page_flag(&self) -> u8
        ensures { result ≡ (read_page (receiver self.now).ring).flag }
    {
        self.ring.flag()
    }

    /// RX_ADDR becomes 0, and a read page that is ready is switched away.
    fn switch(&mut self)
        ensures { receiver self.new ≡ switches true (receiver self.old) }
    {
        self.ring.switch();
        self.pointer.zero();
    }

    /// The ready pages are wiped, and the receiver starts anew.
    fn reset(&mut self)
        ensures { receiver self.new ≡ resets true (receiver self.old) }
    {
        self.ring.wipe();
        self.pointer.zero();
        self.rx_lost = false;
        self.rx_error = false;
        self.reader.hunt();
        self.ones = 0;
    }

    /// A byte written to RX_CTRL: its bits act from bit 0 up.
    #[tactic(auto, unfolding(model::specs::RegisterRule::rx_control))]
    pub(crate) fn control(&mut self, value: u8)
        ensures { receiver self.new ≡ rx_control value (receiver self.old) }
    {
        if has(value, rx_ctrl::ZERO_ADDRESS) {
            self.pointer.zero();
        }
        if has(value, rx_ctrl::SWITCH) {
            self.switch();
        }
        if has(value, rx_ctrl::CLEAR_LOST) {
            self.rx_lost = false;
        }
        if has(value, rx_ctrl::CLEAR_ERROR) {
            self.rx_error = false;
        }
        if has(value, rx_ctrl::RESET) {
            self.reset();
        }
    }
}
