//! The controllers on one line, in a table that the caller lends; each call changes them in place.
#![tactic(auto)]

mod answer;
mod clock;
mod ports;
mod read_page;
mod table;

pub use answer::Answer;
pub use clock::{bit_time, run};
pub use ports::{port_read, port_write};
pub use read_page::look;
pub use table::{MAX_CONTROLLERS, new_table};

#[cfg(test)]
mod tests;
