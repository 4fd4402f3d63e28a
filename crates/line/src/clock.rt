ghost use Rattle.std.specs.Prelude.{◌≡◌, IfOk};
ghost use Rattle.std.specs.List.{list_all};
ghost use Rattle.controller.specs.Refusal.{refused_as};
ghost use Rattle.controller.specs.View.{node, nodes};
ghost use Rattle.model.specs.BitTime.{driving, line_level};
ghost use Rattle.model.specs.Calls.{refuses_run, Runs, after_run};
ghost use Rattle.model.specs.Operations.{bit_time, outcome, then};
ghost use Rattle.line.specs.Answer.{outcome_of};
ghost use Rattle.line.specs.Runs.{times_of};

use crate::answer::Answer;
use crate::table::{check_controller, check_size};
use controller::{Controller, Refusal};

/// No controller drives 0.
fn all_drive_one(table: &[Controller]) -> bool
    ensures { result ≡ list_all (λ c. driving (node c)) table.now }
{
    table.iter().all(Controller::driving)
}

/// The level of the line: 0 if something outside pulls or a controller drives 0.
#[tactic(auto, unfolding(model::specs::BitTime::line_level), using(crate::proofs::Views::all_nodes))]
fn line_level(table: &[Controller], pulled: bool) -> bool
    ensures { result ≡ line_level pulled (nodes table.now) }
{
    !pulled && all_drive_one(table)
}

/// One bit time of the line, pulled to 0 from outside or not. Refused for the size of the table, which then stays.
#[tactic(auto, unfolding(model::specs::Operations::refusal, model::specs::Operations::accepted, model::specs::Operations::then, model::specs::Operations::done))]
pub fn bit_time(table: &mut [Controller], pulled: bool) -> Result<Answer, Refusal>
    ensures answers { outcome_of result ≡ outcome (bit_time pulled) (nodes table.old) }
    ensures after { nodes table.new ≡ then (bit_time pulled) (nodes table.old) }
{
    check_size(table.len())?;
    let level = line_level(table, pulled);
    let mut answer = Answer::new(level);
    for (number, controller) in table.iter_mut().enumerate() {
        answer.push(number, controller.tick(level));
    }
    Ok(answer)
}

/// Makes unpulled bit times until the controller's INT_N is low, and answers how many: none if it was low already, and
/// no more than the limit. Refused for the table's size, then for the controller; the table then stays.
#[tactic(auto, unfolding(model::specs::Calls::refuses_run, model::specs::Calls::after_run, model::specs::Operations::accepted, model::specs::Operations::refusal, model::specs::Operations::then))]
pub fn run(table: &mut [Controller], controller: usize, limit: u16) -> Result<u16, Refusal>
    ensures refuses { refused_as result ≡ refuses_run controller (nodes table.old) }
    ensures runs { IfOk result (λ n. Runs controller limit (nodes table.old) n) }
    ensures after { nodes table.new ≡ after_run controller (times_of result) (nodes table.old) }
{
    check_controller(table.len(), controller)?;
    for made in 0..limit {
        if table[controller].int_n_low() {
            return Ok(made);
        }
        // Not refused: the table's size is judged above.
        bit_time(table, false)?;
    }
    Ok(limit)
}
