ghost use Rattle.std.specs.Prelude.{◌≡◌};
ghost use Rattle.controller.specs.Refusal.{refused_as};
ghost use Rattle.controller.specs.View.{nodes};
ghost use Rattle.model.specs.Calls.{refuses_new, renewed};
ghost use Rattle.line.specs.Placed.{Sized, Placed};

use controller::{Controller, Refusal};

/// The most controllers on one line.
pub const MAX_CONTROLLERS: usize = 16;

/// A table has 1 to 16 places.
pub(crate) fn check_size(places: usize) -> Result<(), Refusal>
    ensures { Sized places result }
{
    if places == 0 || places > MAX_CONTROLLERS {
        return Err(Refusal::TableSize);
    }
    Ok(())
}

/// A table of so many places may be, and the controller is in it.
pub(crate) fn check_controller(places: usize, controller: usize) -> Result<(), Refusal>
    ensures { Placed controller places result }
{
    check_size(places)?;
    if controller >= places {
        return Err(Refusal::NoController);
    }
    Ok(())
}

/// Makes every controller of the table new. Refused for the size of the table, which then stays.
#[tactic(auto, unfolding(model::specs::Calls::refuses_new, model::specs::Calls::renewed, model::specs::Calls::new_table))]
pub fn new_table(table: &mut [Controller]) -> Result<(), Refusal>
    ensures refuses { refused_as result ≡ refuses_new (nodes table.old) }
    ensures after { nodes table.new ≡ renewed (nodes table.old) }
{
    check_size(table.len())?;
    table.fill(Controller::new());
    Ok(())
}
