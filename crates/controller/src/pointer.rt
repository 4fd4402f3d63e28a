ghost use Rattle.std.specs.Prelude.{◌≡◌, ◌+◌, ◌%◌};
ghost use Rattle.model.specs.Controller.{page_size};

/// A place in a page, at which one byte after the other is read or written.
#[derive(Clone, Copy, Default)]
pub(crate) struct PagePointer {
    place: u8,
}

impl PagePointer {
    pub(crate) fn at(place: u8) -> PagePointer
        ensures { result.place ≡ place }
    {
        PagePointer { place }
    }

    pub(crate) fn place(self) -> u8
        ensures { result ≡ self.place }
    {
        self.place
    }

    pub(crate) fn zero(&mut self)
        ensures { self.new.place ≡ 0 }
    {
        *self = PagePointer::default();
    }

    /// Steps on, from the last place to the first: the place that it leaves.
    pub(crate) fn advance(&mut self) -> u8
        ensures left { result ≡ self.old.place }
        ensures on { self.new.place ≡ (self.old.place + 1) % page_size }
    {
        let place = self.place;
        self.place = place.wrapping_add(1);
        place
    }
}
