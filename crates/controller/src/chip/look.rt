ghost use Rattle.std.specs.Prelude.{◌≡◌, length, IfOk};
ghost use Rattle.controller.specs.Look.{buffer_seen, page_from, refuses_page};
ghost use Rattle.controller.specs.Refusal.{refused_as};
ghost use Rattle.controller.specs.View.{node};
ghost use Rattle.model.specs.Operations.{first_of};

use crate::chip::Controller;
use crate::refusal::Refusal;

impl Controller {
    /// Copies the read page from a place on into a buffer, as far as either goes, and answers how many bytes.
    /// It reads with RX_ADDR, which is put back.
    pub fn look(&mut self, place: u8, buffer: &mut [u8]) -> Result<usize, Refusal>
        ensures refuses { refused_as result ≡ first_of (refuses_page (node self.old).rx.ring) }
        ensures after { node self.new ≡ node self.old }
        ensures buffer { buffer.new ≡ buffer_seen place (node self.old).rx.ring buffer.old }
        ensures count { IfOk result (λ n. n ≡ length (page_from place (node self.old).rx.ring (length buffer.old))) }
    {
        self.rx.look(place, buffer)
    }
}
