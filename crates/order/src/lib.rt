//! Cut orders as messages, and what becomes of a message on the line.
#![tactic(auto)]

mod burst;
mod cut;
mod delivery;

pub use burst::Burst;
pub use cut::{CutOrder, SIZES, SizeLine};
pub use delivery::{Delivery, deliver, deliver_disturbed};
