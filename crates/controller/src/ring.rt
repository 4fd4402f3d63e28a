ghost use Rattle.std.specs.Prelude.{◌<◌};

use crate::page::RxPage;

mod fill;
mod pages;

/// The RX pages of a controller.
const RX_PAGES: usize = 8;

/// The RX pages: the read page and those after it are ready, as many as are marked; the next is filled.
#[derive(Clone, Copy)]
pub(crate) struct PageRing {
    pages: [RxPage; RX_PAGES],
    read: u8,
    ready: u8,
    ghost reads: { read < 8 },
    ghost some: { ready < 8 },
}
