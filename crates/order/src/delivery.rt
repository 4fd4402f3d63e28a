ghost use Rattle.order.specs.Delivery.{Delivered, Disturbed, HeardBy, PulledFrame};
ghost use Rattle.frame.specs.Message.{Fault};
ghost use Rattle.std.specs.Prelude.{IfOk, MatchResult};

use crate::burst::Burst;
use frame::{MessageError, Reading, frame_levels, read_frame};
use std::alloc::{AllocError, Global};

/// A message on the line: its levels as they were heard, and what they read as.
#[derive(Drop)]
pub struct Delivery {
    pub levels: Vec<bool>,
    /// Nothing if the frame has not ended.
    pub reading: Option<Reading>,
}

/// What a receiver makes of levels that it hears after an idle line.
fn hear(heap: Global, levels: Vec<bool>) -> Result<Delivery, AllocError>
    ensures { IfOk result (HeardBy levels.items) }
{
    let reading = read_frame(heap, &levels)?;
    Ok(Delivery { levels, reading })
}

/// Sends a message over a quiet line: it reads as what was sent, at the last level.
pub fn deliver(heap: Global, message: &[u8]) -> Result<Delivery, MessageError>
    ensures { MatchResult result (Delivered message.now) (Fault message.now) }
{
    let levels = frame_levels(heap, message)?;
    Ok(hear(heap, levels)?)
}

/// The levels of a message's frame with a burst in them.
fn pulled_levels(heap: Global, message: &[u8], burst: &Burst) -> Result<Vec<bool>, MessageError>
    ensures { MatchResult result (λ v. PulledFrame message.now burst.now v.items) (Fault message.now) }
{
    let sent = frame_levels(heap, message)?;
    Ok(burst.pull(heap, &sent)?)
}

/// Sends a message over a line that a burst pulls: it reads as the rules say, and never as another message.
pub fn deliver_disturbed(
    heap: Global,
    message: &[u8],
    burst: &Burst,
) -> Result<Delivery, MessageError>
    ensures { MatchResult result (Disturbed message.now burst.now) (Fault message.now) }
{
    let levels = pulled_levels(heap, message, burst)?;
    let delivery = hear(heap, levels)?;
    Ok(delivery)
}
