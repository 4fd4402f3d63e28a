ghost use Rattle.std.specs.Prelude.{◌≡◌};
ghost use Rattle.controller.specs.View.{node};
ghost use Rattle.model.specs.Controller.{new};

use crate::receiver::Receiver;
use crate::settings::Settings;
use crate::transmitter::Transmitter;

mod interrupt;
mod look;
mod read;
mod tick;
mod write;

/// A controller on the line.
#[derive(Clone, Copy)]
pub struct Controller {
    settings: Settings,
    tx: Transmitter,
    rx: Receiver,
}

impl Controller {
    /// A controller as it is before anything is done with it.
    #[tactic(auto, unfolding(model::specs::Controller::new))]
    pub fn new() -> Controller
        ensures { node result ≡ new }
    {
        Controller {
            settings: Settings::new(),
            tx: Transmitter::new(),
            rx: Receiver::new(),
        }
    }
}

impl Default for Controller {
    ghost is_default = { λ controller. node controller ≡ new };

    fn default() -> Controller {
        Controller::new()
    }
}
