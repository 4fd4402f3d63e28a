ghost use Rattle.std.specs.Prelude.{◌≡◌};
ghost use Rattle.controller.specs.Settings.{settings};
ghost use Rattle.model.specs.BitTime.{saves};
ghost use Rattle.model.specs.Controller.{new_settings};

use crate::bits::has;
use frame::Filters;

/// The bit of SETTING that has broken frames saved.
const SAVE_BROKEN: u8 = 0x08;

/// The registers that keep what is written.
#[derive(Clone, Copy)]
pub(crate) struct Settings {
    pub(crate) setting: u8,
    pub(crate) idle_wait_len: u8,
    pub(crate) tx_wait_len: u8,
    pub(crate) filters: Filters,
    pub(crate) div_ls_l: u8,
    pub(crate) div_ls_h: u8,
    pub(crate) div_hs_l: u8,
    pub(crate) div_hs_h: u8,
    pub(crate) int_mask: u8,
}

impl Settings {
    pub(crate) fn new() -> Settings
        ensures { settings result ≡ new_settings }
    {
        Settings {
            setting: 0x10,
            idle_wait_len: 10,
            tx_wait_len: 20,
            filters: Filters {
                filter: 0xFF,
                filter1: 0xFF,
                filter2: 0xFF,
            },
            div_ls_l: 0x5A,
            div_ls_h: 0x01,
            div_hs_l: 0x5A,
            div_hs_h: 0x01,
            int_mask: 0,
        }
    }

    /// SETTING says that broken frames are saved.
    pub(crate) fn saves_broken(&self) -> bool
        ensures { result ≡ saves (settings self.now) }
    {
        has(self.setting, SAVE_BROKEN)
    }
}
