ghost use Rattle.std.specs.Prelude.{◌≡◌, false, not, ◌&&◌, map, IfOk, slice_index_or};
ghost use Rattle.std.specs.List.{enumerate_from};
ghost use Rattle.order.specs.Burst.{MadeOf, pulls};
ghost use Rattle.model.specs.Disturbance.{pulled_low};

use crate::burst::Burst;
use frame::BYTE_LEVELS;
use std::alloc::{AllocError, Global};

/// Where the levels of the length byte, the third, begin and end.
const LENGTH_START: usize = 2 * BYTE_LEVELS;

const LENGTH_END: usize = 3 * BYTE_LEVELS;

impl Burst {
    /// A burst of so many levels from a place on; nothing if it is longer than 16 or meets the length byte.
    pub fn new(start: usize, count: usize) -> Option<Burst>
        ensures { MadeOf start count result }
    {
        let before = start <= LENGTH_START && count <= LENGTH_START - start;
        let behind = start >= LENGTH_END;
        if count <= 16 && (before || behind) {
            Some(Burst { start, count })
        } else {
            None
        }
    }

    /// Whether the level at a place is pulled.
    fn covers(&self, place: usize) -> bool
        ensures { result ≡ slice_index_or (pulls self.now) place false }
    {
        place >= self.start && place - self.start < self.count
    }

    /// What a level becomes at a place.
    fn level(&self, place: usize, level: bool) -> bool
        ensures { result ≡ (level && not (slice_index_or (pulls self.now) place false)) }
    {
        level && !self.covers(place)
    }

    /// What each level becomes at its place.
    fn pull_each(&self, heap: Global, levels: &[bool]) -> Result<Vec<bool>, AllocError>
        ensures { IfOk result (λ v. v.items ≡ map (λ p. p.1 && not (slice_index_or (pulls self.now) p.0 false)) (enumerate_from 0 levels.now)) }
    {
        levels
            .iter()
            .enumerate()
            .map(|(place, level)| self.level(place, *level))
            .collect(heap)
    }

    /// The levels with the burst in them.
    pub fn pull(&self, heap: Global, levels: &[bool]) -> Result<Vec<bool>, AllocError>
        ensures { IfOk result (λ v. v.items ≡ pulled_low levels.now (pulls self.now)) }
    {
        self.pull_each(heap, levels)
    }
}
