#![tactic(auto, unfolding(model::specs::BitTime::drives, model::specs::BitTime::next_level, model::specs::BitTime::in_source, model::specs::BitTime::in_last, model::specs::BitTime::draws_back, model::specs::BitTime::gives_up, model::specs::BitTime::finishes, model::specs::BitTime::transmits))]

ghost use Rattle.std.specs.Prelude.{◌≡◌, ◌+◌, ◌<◌, true, length, slice_index_or};
ghost use Rattle.controller.specs.Transmission.{is_drawn_back, is_given_up, is_sent};
ghost use Rattle.controller.specs.Transmitter.{transmitter};
ghost use Rattle.model.specs.BitTime.{with_state, frame_of, drives, draws_back, gives_up, finishes, transmits};
ghost use Rattle.model.specs.Controller.{sending, is_waiting};

use crate::transmitter::{TransmitState, Transmitter};
use frame::{BYTE_LEVELS, CRC_BYTES, frame_level};

/// The bits of the source byte follow the start bit.
const SOURCE_BITS: u16 = 8;

/// The conflict at which a page is given up.
const MAX_CONFLICTS: u8 = 16;

/// What became of the page that was being sent; who gives up also draws back.
#[derive(Clone, Copy)]
pub(crate) enum Transmission {
    DrewBack,
    GaveUp,
    Sent,
}

impl Transmitter {
    /// A page waits and is not being sent.
    pub(crate) fn is_waiting(&self) -> bool
        ensures { result ≡ is_waiting (transmitter self.now).state }
    {
        self.state == TransmitState::Waiting
    }

    /// A level of the waiting page's frame.
    pub(crate) fn level_at(&self, place: u16) -> bool
        ensures { result ≡ slice_index_or (frame_of (transmitter self.now)) place true }
    {
        frame_level(self.message(), usize::from(place))
    }

    /// The place of the last level of the waiting page's frame.
    #[tactic(auto, using(model::proofs::Levels::length_frame_levels))]
    fn last_place(&self) -> usize
        ensures is { result + 1 ≡ length (frame_of (transmitter self.now)) }
        ensures most { result < 2580 }
    {
        BYTE_LEVELS * (self.message().len() + CRC_BYTES) - 1
    }

    /// The level that it drives, 1 if it does not send.
    pub(crate) fn drives(&self) -> bool
        ensures { result ≡ drives (transmitter self.now) }
    {
        match self.state {
            TransmitState::Sending { driven } => self.level_at(driven),
            _ => true,
        }
    }

    /// The waiting page is being sent from now on, none of its levels driven yet.
    #[tactic(auto, using(crate::proofs::SendingLemmas::first_level))]
    pub(crate) fn begin(&mut self)
        ensures { transmitter self.new ≡ with_state (sending 0) (transmitter self.old) }
    {
        self.state = TransmitState::Sending { driven: 0 };
    }

    /// A sender that drove 1 in a source bit and sees 0 draws back.
    fn draws_back(&self, level: bool) -> bool
        ensures { result ≡ draws_back level (transmitter self.now) }
    {
        match self.state {
            TransmitState::Sending {
                driven: driven @ 1..=SOURCE_BITS,
            } => !level && self.level_at(driven),
            _ => false,
        }
    }

    /// One bit time in which the line had this level: what became of the page that is being sent, if something did.
    #[tactic(auto, using(crate::proofs::SendingLemmas::next_within), unfolding(crate::specs::Sending::frame_size, model::specs::BitTime::drives, model::specs::BitTime::next_level, model::specs::BitTime::in_source, model::specs::BitTime::in_last, model::specs::BitTime::draws_back, model::specs::BitTime::gives_up, model::specs::BitTime::finishes, model::specs::BitTime::transmits))]
    pub(crate) fn transmit(&mut self, level: bool) -> Option<Transmission>
        ensures after { transmitter self.new ≡ transmits level (transmitter self.old) }
        ensures back { is_drawn_back result ≡ draws_back level (transmitter self.old) }
        ensures up { is_given_up result ≡ gives_up level (transmitter self.old) }
        ensures sent { is_sent result ≡ finishes level (transmitter self.old) }
    {
        let TransmitState::Sending { driven } = self.state else {
            return None;
        };
        if self.draws_back(level) {
            self.tx_cd = true;
            if self.conflicts + 1 == MAX_CONFLICTS {
                self.tx_error = true;
                self.free();
                return Some(Transmission::GaveUp);
            }
            self.state = TransmitState::Waiting;
            self.conflicts += 1;
            return Some(Transmission::DrewBack);
        }
        if usize::from(driven) == self.last_place() {
            self.free();
            return Some(Transmission::Sent);
        }
        self.state = TransmitState::Sending { driven: driven + 1 };
        None
    }
}
