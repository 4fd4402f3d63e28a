ghost use Rattle.std.specs.Prelude.{◌≡◌, true, length, slice_index};
ghost use Rattle.controller.specs.Ring.{page_of, page_ring};
ghost use Rattle.model.specs.Controller.{page_size, read_page, new_ring};
ghost use Rattle.model.specs.RegisterRule.{is_ready, switched, wiped};

use crate::page::{PAGE, RxPage};
use crate::ring::{PageRing, RX_PAGES};

impl PageRing {
    pub(crate) fn new() -> PageRing
        ensures { page_ring result ≡ new_ring }
    {
        let empty = RxPage {
            bytes: [0; PAGE],
            flag: 0,
        };
        PageRing {
            pages: [empty; RX_PAGES],
            read: 0,
            ready: 0,
        }
    }

    /// The read page is ready.
    pub(crate) fn is_ready(&self) -> bool
        ensures { result ≡ is_ready (page_ring self.now) }
    {
        self.ready != 0
    }

    fn read_page(&self) -> &RxPage
        ensures { page_of result.now ≡ read_page (page_ring self.now) }
    {
        &self.pages[usize::from(self.read)]
    }

    /// The byte of the read page at an address.
    pub(crate) fn byte(&self, address: u8) -> u8
        ensures { result ≡ slice_index (read_page (page_ring self.now)).bytes address }
    {
        self.read_page().bytes[usize::from(address)]
    }

    /// The bytes of the read page.
    pub(crate) fn read_bytes(&self) -> &[u8]
        ensures is { result.now ≡ (read_page (page_ring self.now)).bytes }
        ensures whole { length result.now ≡ page_size }
    {
        &self.read_page().bytes
    }

    /// The flag that was stored when the read page was last filled.
    pub(crate) fn flag(&self) -> u8
        ensures { result ≡ (read_page (page_ring self.now)).flag }
    {
        self.read_page().flag
    }

    /// A read page that is ready is unmarked, and the next is read.
    pub(crate) fn switch(&mut self)
        ensures { page_ring self.new ≡ switched true (page_ring self.old) }
    {
        if self.is_ready() {
            self.read = (self.read + 1) % RX_PAGES as u8;
            self.ready -= 1;
        }
    }

    /// All marks go, and the read page and the fill page are page 0.
    pub(crate) fn wipe(&mut self)
        ensures { page_ring self.new ≡ wiped true (page_ring self.old) }
    {
        self.read = 0;
        self.ready = 0;
    }
}
