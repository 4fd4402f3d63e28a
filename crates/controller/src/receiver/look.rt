ghost use Rattle.std.specs.Prelude.{◌≡◌, length, IfOk};
ghost use Rattle.controller.specs.Look.{buffer_seen, page_from, refuses_page};
ghost use Rattle.controller.specs.Receiver.{receiver};
ghost use Rattle.controller.specs.Refusal.{refused_as};
ghost use Rattle.model.specs.Operations.{first_of};

use crate::page::LAST_PLACE;
use crate::receiver::Receiver;
use crate::receiver::restore::Restore;
use crate::refusal::Refusal;

impl Receiver {
    /// Copies the read page from a place on, until the buffer is full or the last place was read.
    #[tactic(auto, using(crate::proofs::Look::front_more, crate::proofs::Look::front_seen, crate::proofs::Look::count_seen), unfolding(crate::specs::Look::buffer_seen))]
    pub(crate) fn look(&mut self, place: u8, buffer: &mut [u8]) -> Result<usize, Refusal>
        ensures refuses { refused_as result ≡ first_of (refuses_page (receiver self.old).ring) }
        ensures after { receiver self.new ≡ receiver self.old }
        ensures buffer { buffer.new ≡ buffer_seen place (receiver self.old).ring buffer.old }
        ensures count { IfOk result (λ n. n ≡ length (page_from place (receiver self.old).ring (length buffer.old))) }
    {
        let ring = &self.ring;
        let guard = Restore::at(&mut self.pointer, place);
        if !ring.is_ready() {
            return Err(Refusal::NoPageReady);
        }
        let page = ring.read_bytes();
        for (count, byte) in buffer.iter_mut().enumerate() {
            let read = guard.pointer.advance();
            *byte = page[usize::from(read)];
            if read == LAST_PLACE {
                return Ok(count + 1);
            }
        }
        Ok(buffer.len())
    }
}
