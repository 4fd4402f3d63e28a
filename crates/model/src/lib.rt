// The rules stand in specs/; here are the functions that hold theorems about them.
#![tactic(auto)]

ghost use Rattle.std.specs.Prelude.{◌≡◌, length};
ghost use Rattle.model.specs.WorkedExamples.{Every, Holds, worked_examples};

/// How many worked examples there are.
fn count() -> usize
    ensures { result ≡ length worked_examples }
{
    15
}

/// How many worked examples there are, each of which is proved.
pub fn worked_examples() -> usize
    ensures counted { result ≡ length worked_examples }
    ensures hold { Every Holds worked_examples }
{
    count()
}
