ghost use Rattle.std.specs.Prelude.{◌≡◌};
ghost use Rattle.model.specs.Operations.{burst as is_burst};

/// Which way the bytes of a port call go.
#[derive(Clone, Copy, PartialEq, Eq, Debug)]
pub(crate) enum Direction {
    Write,
    Read,
}

/// The most bytes of a burst.
const MAX_BURST: usize = 256;

/// A burst has one byte, or up to 256 at a register that takes several.
pub(crate) fn is_burst(several: bool, count: usize) -> bool
    ensures { result ≡ is_burst several count }
{
    count == 1 || several && (1..=MAX_BURST).contains(&count)
}
