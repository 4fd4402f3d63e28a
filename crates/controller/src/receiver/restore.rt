ghost use Rattle.std.specs.Prelude.{◌≡◌};

use crate::pointer::PagePointer;
use std::mem;

/// RX_ADDR lent for a while: it is put back as it was on every way out.
pub(crate) struct Restore<'a> {
    pub(crate) pointer: &'a mut PagePointer,
    saved: PagePointer,
}

impl Drop for Restore<'_> {
    fn drop(self)
        ensures { self.exit.0.now ≡ self.entry.saved }
    {
        let Restore { pointer, saved } = self;
        *pointer = saved;
    }
}

impl<'a> Restore<'a> {
    /// RX_ADDR at a place for now.
    pub(crate) fn at(pointer: &'a mut PagePointer, place: u8) -> Restore<'a>
        ensures place { result.pointer.now.place ≡ place }
        ensures saved { result.saved ≡ pointer.old }
        ensures lender { result.pointer.ghost_name ≡ pointer.entry.ghost_name }
    {
        let saved = mem::replace(pointer, PagePointer::at(place));
        Restore { pointer, saved }
    }
}
