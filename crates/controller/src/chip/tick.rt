ghost use Rattle.std.specs.Prelude.{◌≡◌};
ghost use Rattle.controller.specs.Marks.{marked};
ghost use Rattle.controller.specs.View.{node};
ghost use Rattle.model.specs.BitTime.{begins as begins_now, driving as driving_now, ticked, marks as marks_now};

use crate::chip::Controller;
use crate::marks::Marks;
use crate::transmitter::Transmission;

impl Controller {
    /// A page waits, is not being sent, and the line was 1 for both waits.
    #[tactic(auto, unfolding(model::specs::BitTime::begins))]
    fn begins(&self) -> bool
        ensures { result ≡ begins_now (node self.now) }
    {
        let wait = u16::from(self.settings.idle_wait_len) + u16::from(self.settings.tx_wait_len);
        self.tx.is_waiting() && self.rx.has_waited(wait)
    }

    /// The level that it drives in a bit time, 1 if it does not send; one that begins drives the first of its frame.
    #[tactic(auto, unfolding(model::specs::BitTime::begun, model::specs::BitTime::drives, model::specs::BitTime::next_level))]
    pub fn driving(&self) -> bool
        ensures { result ≡ driving_now (node self.now) }
    {
        if self.begins() {
            self.tx.level_at(0)
        } else {
            self.tx.drives()
        }
    }

    /// One bit time in which the line had this level.
    #[tactic(auto, unfolding(model::specs::BitTime::ticked, model::specs::BitTime::marks, model::specs::BitTime::begun, model::specs::BitTime::listens, model::specs::RegisterRule::idle))]
    pub fn tick(&mut self, level: bool) -> Marks
        ensures after { node self.new ≡ ticked level (node self.old) }
        ensures marks { marked result ≡ marks_now level (node self.old) }
    {
        let began = self.begins();
        let Controller { settings, tx, rx } = self;
        if began {
            tx.begin();
        }
        let transmission = tx.transmit(level);
        let made_ready = rx.listen(settings, level);
        rx.count(level);
        Marks {
            began,
            drew_back: matches!(
                transmission,
                Some(Transmission::DrewBack | Transmission::GaveUp)
            ),
            sent: matches!(transmission, Some(Transmission::Sent)),
            gave_up: matches!(transmission, Some(Transmission::GaveUp)),
            made_ready,
        }
    }
}
