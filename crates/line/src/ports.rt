#![tactic(auto, unfolding(model::specs::Operations::refusal, model::specs::Operations::accepted, model::specs::Operations::then))]

ghost use Rattle.std.specs.Prelude.{◌≡◌, length};
ghost use Rattle.controller.specs.Refusal.{refused_as};
ghost use Rattle.controller.specs.View.{nodes};
ghost use Rattle.model.specs.Loading.{Loading};
ghost use Rattle.model.specs.Operations.{write as port_write, read as port_read, refusal, then, buffer_after};

use crate::table::check_controller;
use controller::{Controller, Refusal};

/// Writes bytes to a register of a controller, one after the other.
///
/// Refused, by the first that fits: the table's size, the controller, the register's number, a register that is
/// not writable, the number of bytes, a value that is not admitted. A refusal changes nothing.
///
/// A message that is written to TX from place 0 on, in whatever bursts, and STARTed where no page waits is what
/// then waits.
pub fn port_write(
    table: &mut [Controller],
    controller: usize,
    register: u8,
    bytes: &[u8],
) -> Result<(), Refusal>
    ensures refuses { refused_as result ≡ refusal (port_write controller register bytes.now) (nodes table.old) }
    ensures after { nodes table.new ≡ then (port_write controller register bytes.now) (nodes table.old) }
    ensures loads { Loading }
{
    check_controller(table.len(), controller)?;
    table[controller].write(register, bytes)
}

/// Reads so many bytes of a register of a controller into a buffer from a place on; the rest of it stays.
///
/// Refused, by the first that fits: the table's size, the controller, the register's number, a register that is
/// not readable, the number of bytes, a place that leaves too little of the buffer. A refusal changes nothing.
pub fn port_read(
    table: &mut [Controller],
    controller: usize,
    register: u8,
    buffer: &mut [u8],
    place: usize,
    count: usize,
) -> Result<(), Refusal>
    ensures refuses { refused_as result ≡ refusal (port_read controller register count place (length buffer.old)) (nodes table.old) }
    ensures after { nodes table.new ≡ then (port_read controller register count place (length buffer.old)) (nodes table.old) }
    ensures buffer { buffer.new ≡ buffer_after (port_read controller register count place (length buffer.old)) (nodes table.old) buffer.old }
{
    check_controller(table.len(), controller)?;
    table[controller].read(register, buffer, place, count)
}
