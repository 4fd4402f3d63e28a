ghost use Rattle.std.specs.Prelude.{◌≡◌, true};
ghost use Rattle.order.specs.Bounds.{short};

mod pull;

/// Levels in a row that something outside pulls to 0: at most 16, none of them of the length byte.
#[derive(Clone, Copy)]
pub struct Burst {
    start: usize,
    count: usize,
    ghost bounds: { short start count ≡ true },
}
