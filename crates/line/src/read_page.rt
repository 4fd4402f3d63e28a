ghost use Rattle.std.specs.Prelude.{◌≡◌, length, IfOk};
ghost use Rattle.controller.specs.Refusal.{refused_as};
ghost use Rattle.controller.specs.View.{nodes};
ghost use Rattle.model.specs.Calls.{refuses_look, look_count, buffer_looked};

use crate::table::check_controller;
use controller::{Controller, Refusal};

/// Copies the read page of a controller from a place on into a buffer, until the buffer is full or place 255 was
/// read, and answers how many bytes; the rest of the buffer stays, and so does the table, RX_ADDR too.
///
/// Refused, by the first that fits: the table's size, the controller, no page ready. A refusal changes nothing.
#[tactic(auto, unfolding(controller::specs::Look::page_from, controller::specs::Look::buffer_seen, model::specs::Calls::refuses_look, model::specs::Calls::looked, model::specs::Calls::buffer_looked))]
pub fn look(
    table: &mut [Controller],
    controller: usize,
    place: u8,
    buffer: &mut [u8],
) -> Result<usize, Refusal>
    ensures refuses { refused_as result ≡ refuses_look controller (nodes table.old) }
    ensures after { nodes table.new ≡ nodes table.old }
    ensures buffer { buffer.new ≡ buffer_looked controller place (nodes table.old) buffer.old }
    ensures count { IfOk result (λ n. n ≡ look_count controller place (nodes table.old) (length buffer.old)) }
{
    check_controller(table.len(), controller)?;
    table[controller].look(place, buffer)
}
