ghost use Rattle.std.specs.Prelude.{◌≡◌};
ghost use Rattle.model.specs.Bits.{reversed};
ghost use Rattle.frame.specs.Arbitration.{Decided};

use std::cmp::Ordering;

/// A source byte with its eight bits in opposite order.
#[tactic(auto, using(crate::proofs::Reversed::reverse_bits_reversed))]
pub fn reversed_source(source: u8) -> u8
    ensures { result ≡ reversed source }
{
    source.reverse_bits()
}

/// Who keeps the line where two senders begin together.
#[derive(Clone, Copy, PartialEq, Eq, Debug)]
pub enum Arbitration {
    First,
    Second,
    /// Equal source bytes: neither draws back.
    Tie,
}

/// Which of two source bytes keeps the line: a 0 is stronger than a 1, and bits are sent lowest first.
#[tactic(auto, using(crate::proofs::Reversed::lower_goes_first, crate::proofs::Reversed::higher_goes_second, crate::proofs::Reversed::same_source))]
pub fn arbitrate(first: u8, second: u8) -> Arbitration
    ensures { Decided first second result }
{
    match reversed_source(first).cmp(&reversed_source(second)) {
        Ordering::Less => Arbitration::First,
        Ordering::Greater => Arbitration::Second,
        Ordering::Equal => Arbitration::Tie,
    }
}
