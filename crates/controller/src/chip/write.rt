ghost use Rattle.std.specs.Prelude.{◌≡◌};
ghost use Rattle.controller.specs.Bursts.{after_write};
ghost use Rattle.controller.specs.Refusal.{refused_as};
ghost use Rattle.controller.specs.Register.{ruled};
ghost use Rattle.controller.specs.View.{node};
ghost use Rattle.model.specs.Operations.{first_of, refuses_write};
ghost use Rattle.model.specs.RegisterRule.{admits as admitted, writes, writes_all};

use crate::bits::has;
use crate::burst::Direction;
use crate::chip::Controller;
use crate::refusal::Refusal;
use crate::register::Register;
use crate::{rx_ctrl, tx_ctrl};

/// The bits that SETTING admits.
const SETTING_BITS: u8 = 0x39;

impl Controller {
    /// Whether a register takes a value now.
    fn admits(&self, register: Register, value: u8) -> bool
        ensures { result ≡ admitted (ruled register) value (node self.now) }
    {
        match (register, value) {
            (Register::Version | Register::IntFlag | Register::Rx | Register::RxPageFlag, _) =>
                false,
            (Register::Setting, v) => v & SETTING_BITS == v,
            (Register::IdleWaitLen, 0..=9) => false,
            (Register::TxWaitLen, 0) => false,
            (Register::RxCtrl | Register::TxCtrl, 0x20..) => false,
            (Register::RxCtrl, v) if has(v, rx_ctrl::SWITCH) && has(v, rx_ctrl::RESET) => false,
            (Register::TxCtrl, v) if has(v, tx_ctrl::START) && has(v, tx_ctrl::ABORT) => false,
            (Register::TxCtrl, v) => !self.tx.starts_too_long(v),
            _ => true,
        }
    }

    /// One byte written to a register; one that is read only stays.
    fn write_byte(&mut self, register: Register, value: u8)
        ensures { node self.new ≡ writes (ruled register) value (node self.old) }
    {
        match register {
            Register::Setting => self.settings.setting = value,
            Register::IdleWaitLen => self.settings.idle_wait_len = value,
            Register::TxWaitLen => self.settings.tx_wait_len = value,
            Register::Filter => self.settings.filters.filter = value,
            Register::Filter1 => self.settings.filters.filter1 = value,
            Register::Filter2 => self.settings.filters.filter2 = value,
            Register::DivLsL => self.settings.div_ls_l = value,
            Register::DivLsH => self.settings.div_ls_h = value,
            Register::DivHsL => self.settings.div_hs_l = value,
            Register::DivHsH => self.settings.div_hs_h = value,
            Register::IntMask => self.settings.int_mask = value,
            Register::Tx => self.tx.store(value),
            Register::RxCtrl => self.rx.control(value),
            Register::TxCtrl => self.tx.control(value),
            Register::RxAddr => self.rx.set_address(value),
            Register::Version | Register::IntFlag | Register::Rx | Register::RxPageFlag => {}
        }
    }

    #[tactic(auto, using(crate::proofs::Runs::write_steps))]
    fn write_all(&mut self, register: Register, bytes: &[u8])
        ensures { node self.new ≡ writes_all (ruled register) bytes.now (node self.old) }
    {
        for byte in bytes {
            self.write_byte(register, *byte);
        }
    }

    /// Writes bytes to a register, one after the other.
    #[tactic(auto, unfolding(crate::specs::Bursts::after_write))]
    pub fn write(&mut self, register: u8, bytes: &[u8]) -> Result<(), Refusal>
        ensures refuses { refused_as result ≡ first_of (refuses_write register bytes.now (node self.old)) }
        ensures after { node self.new ≡ after_write register bytes.now (node self.old) }
    {
        let found = Register::for_burst(register, Direction::Write, bytes.len())?;
        if !self.admits(found, bytes[0]) {
            return Err(Refusal::Value);
        }
        self.write_all(found, bytes);
        Ok(())
    }
}
