ghost use Rattle.std.specs.Prelude.{◌≡◌};
ghost use Rattle.controller.specs.Ring.{page_of};
ghost use Rattle.model.specs.BitTime.{page_of as padded};

/// The bytes of a page.
pub(crate) const PAGE: usize = 256;

/// The last place in a page.
pub(crate) const LAST_PLACE: u8 = (PAGE - 1) as u8;

/// An RX page, as it was last filled: flag 0 stands for a right frame.
#[derive(Clone, Copy)]
pub(crate) struct RxPage {
    pub(crate) bytes: [u8; PAGE],
    pub(crate) flag: u8,
}

impl RxPage {
    /// Bytes, as many as a page takes, then zeros; and a flag.
    #[tactic(auto, using(crate::proofs::Pages::padded_parts))]
    pub(crate) fn fill(&mut self, bytes: &[u8], flag: u8)
        ensures { page_of self.new ≡ record { bytes = padded bytes.now; flag = flag } }
    {
        let count = bytes.len().min(PAGE);
        let (front, rest) = self.bytes.split_at_mut(count);
        front.copy_from_slice(&bytes[..count]);
        rest.fill(0);
        self.flag = flag;
    }
}
