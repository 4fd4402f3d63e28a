ghost use Rattle.std.specs.Prelude.{◌≡◌};
ghost use Rattle.model.specs.Filter.{accepts};
ghost use Rattle.frame.specs.Filter.{addresses};

/// The addresses that a controller takes frames for: its own, FILTER, and two multicast addresses.
#[derive(Clone, Copy)]
pub struct Filters {
    pub filter: u8,
    pub filter1: u8,
    pub filter2: u8,
}

impl Filters {
    /// Whether a frame is taken: the first rule that fits decides.
    pub fn accept(&self, source: u8, destination: u8) -> bool
        ensures { result ≡ accepts (addresses self.now) source destination }
    {
        match (source, destination) {
            _ if self.filter == 255 => true,
            (s, _) if s == self.filter => false,
            (_, 255) => true,
            (_, d) if d == self.filter1 || d == self.filter2 => true,
            (_, d) if d == self.filter => true,
            _ => false,
        }
    }
}
