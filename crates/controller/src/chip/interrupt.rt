ghost use Rattle.std.specs.Prelude.{◌≡◌};
ghost use Rattle.controller.specs.View.{node};
ghost use Rattle.model.specs.RegisterRule.{idle, int_flags, interrupts};

use crate::chip::Controller;

impl Controller {
    #[tactic(auto, unfolding(model::specs::RegisterRule::idle))]
    fn is_idle(&self) -> bool
        ensures { result ≡ idle (node self.now) }
    {
        self.rx.has_waited(self.settings.idle_wait_len.into())
    }

    /// INT_FLAG
    pub(crate) fn int_flag(&self) -> u8
        ensures { result ≡ int_flags (node self.now) }
    {
        u8::from(self.is_idle())
            | u8::from(self.rx.is_ready()) << 1
            | u8::from(self.rx.rx_lost) << 2
            | u8::from(self.rx.rx_error) << 3
            | u8::from(self.tx.is_free()) << 4
            | u8::from(self.tx.tx_cd) << 5
            | u8::from(self.tx.tx_error) << 6
    }

    /// INT_N is low: INT_FLAG and INT_MASK share a 1.
    pub fn int_n_low(&self) -> bool
        ensures { result ≡ interrupts (node self.now) }
    {
        self.int_flag() & self.settings.int_mask != 0
    }
}
