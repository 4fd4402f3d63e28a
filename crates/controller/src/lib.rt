//! One controller: what it holds, what a written or read register byte does, and what is turned away.
#![tactic(auto)]

mod bits;
mod burst;
mod chip;
mod marks;
mod page;
mod pointer;
mod receiver;
mod refusal;
mod register;
mod ring;
pub mod rx_ctrl;
mod settings;
mod transmitter;
pub mod tx_ctrl;

pub use chip::Controller;
pub use marks::Marks;
pub use refusal::Refusal;
pub use register::{Register, register_number};
