//! What a frame reads as under every burst of a length.
ghost use Rattle.std.specs.Prelude.{◌≡◌, IfOk};
ghost use Rattle.order.specs.Delivery.{NeverOther};

use frame::{Ending, MessageError, Reading};
use order::{Burst, deliver_disturbed};
use std::alloc::Global;

/// How often a disturbed frame read as the message, as another, or not as right.
#[derive(Clone, Copy, Default)]
pub struct Tally {
    pub bursts: usize,
    pub same: usize,
    pub other: usize,
    pub broken: usize,
    pub unfinished: usize,
}

impl Tally {
    /// One reading more, of levels that never read as another message.
    fn note(&mut self, message: &[u8], reading: &Option<Reading>)
        requires { NeverOther message.now reading.now }
        ensures { self.new.other ≡ self.old.other }
    {
        self.bursts = self.bursts.saturating_add(1);
        let Some(reading) = reading else {
            self.unfinished = self.unfinished.saturating_add(1);
            return;
        };
        match reading.ending {
            Ending::Broken => self.broken = self.broken.saturating_add(1),
            Ending::Right => {
                if reading.bytes.as_slice().starts_with(message) {
                    self.same = self.same.saturating_add(1);
                } else {
                    self.other = self.other.saturating_add(1);
                }
            }
        }
    }
}

/// Tries every burst of so many levels that starts before a place and that the promise covers.
pub(crate) fn every_burst(
    heap: Global,
    message: &[u8],
    places: usize,
    count: usize,
) -> Result<Tally, MessageError>
    ensures { IfOk result (λ t. t.other ≡ 0) }
{
    let mut tally = Tally::default();
    for burst in (0..places).filter_map(|start| Burst::new(start, count)) {
        let delivery = deliver_disturbed(heap, message, &burst)?;
        tally.note(message, &delivery.reading);
    }
    Ok(tally)
}
