ghost use Rattle.std.specs.Prelude.{◌≡◌, ◌∷◌, ◌++◌, IfOk, OnOk};
ghost use Rattle.order.specs.Order.{line_bytes, order_bytes};
ghost use Rattle.std.specs.List.{flat_map};

use std::alloc::{AllocError, Global};

/// The sizes of a marker.
pub const SIZES: usize = 23;

/// The data bytes of an order: four for the marker and four for each size.
const DATA: u8 = 4 + 4 * SIZES as u8;

/// One size of a marker: the plies that are laid for it, and the pieces that are cut from each.
#[derive(Clone, Copy)]
pub struct SizeLine {
    pub size: u8,
    pub plies: u16,
    pub pieces: u8,
}

/// What the nesting screen orders to be cut.
#[derive(Clone, Copy)]
pub struct CutOrder {
    pub marker: u32,
    pub lines: [SizeLine; SIZES],
}

impl SizeLine {
    /// The line as bytes of an order.
    fn to_bytes(self) -> [u8; 4]
        ensures { result ≡ line_bytes self }
    {
        let [low, high] = self.plies.to_le_bytes();
        [self.size, low, high, self.pieces]
    }
}

fn push_lines(bytes: &mut Vec<u8>, lines: &[SizeLine]) -> Result<(), AllocError>
    ensures { OnOk result (bytes.new.items ≡ bytes.old.items ++ flat_map line_bytes lines.now) }
{
    for line in lines {
        bytes.extend_from_slice(&line.to_bytes())?;
    }
    Ok(())
}

impl CutOrder {
    /// The order as a message from a source to a destination.
    pub fn message(&self, heap: Global, source: u8, destination: u8) -> Result<Vec<u8>, AllocError>
        ensures { IfOk result (λ v. v.items ≡ source ∷ destination ∷ 96 ∷ order_bytes self.now) }
    {
        let mut bytes = Vec::new(heap);
        bytes.extend_from_slice(&[source, destination, DATA])?;
        bytes.extend_from_slice(&self.marker.to_le_bytes())?;
        push_lines(&mut bytes, &self.lines)?;
        Ok(bytes)
    }
}
