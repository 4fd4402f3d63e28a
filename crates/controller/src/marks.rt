ghost use Rattle.std.specs.Prelude.{◌≡◌, false};

/// What a bit time answers for one controller. At the last conflict a page is given up, and its sender draws back too.
#[derive(Clone, Copy, PartialEq, Eq, Debug, Default)]
pub struct Marks {
    pub began: bool,
    pub drew_back: bool,
    pub sent: bool,
    pub gave_up: bool,
    /// An RX page was made ready.
    pub made_ready: bool,
}

impl Marks {
    /// None of them.
    pub fn none() -> Marks
        ensures began { result.began ≡ false }
        ensures back { result.drew_back ≡ false }
        ensures sent { result.sent ≡ false }
        ensures up { result.gave_up ≡ false }
        ensures ready { result.made_ready ≡ false }
    {
        Marks::default()
    }
}
