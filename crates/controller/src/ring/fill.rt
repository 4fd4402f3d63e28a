ghost use Rattle.std.specs.Prelude.{◌≡◌};
ghost use Rattle.controller.specs.Ring.{page_ring};
ghost use Rattle.model.specs.BitTime.{filled, room};

use crate::ring::{PageRing, RX_PAGES};

/// One page fewer than there are can be ready.
const MOST_READY: u8 = RX_PAGES as u8 - 1;

impl PageRing {
    /// Fills the fill page and makes it ready, if not too many are: whether it did.
    #[tactic(auto, using(crate::proofs::Pages::page_written), unfolding(model::specs::BitTime::filled))]
    pub(crate) fn fill(&mut self, bytes: &[u8], flag: u8) -> bool
        ensures after { page_ring self.new ≡ filled (room (page_ring self.old)) bytes.now flag (page_ring self.old) }
        ensures made { result ≡ room (page_ring self.old) }
    {
        if self.ready >= MOST_READY {
            return false;
        }
        let fill = usize::from((self.read + self.ready) % RX_PAGES as u8);
        self.pages[fill].fill(bytes, flag);
        self.ready += 1;
        true
    }
}
