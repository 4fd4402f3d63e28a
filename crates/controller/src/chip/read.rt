ghost use Rattle.std.specs.Prelude.{◌≡◌, ◌+◌, length, nat_le};
ghost use Rattle.controller.specs.Bursts.{after_read, buffer_read};
ghost use Rattle.controller.specs.Refusal.{refused_as};
ghost use Rattle.controller.specs.Register.{ruled};
ghost use Rattle.controller.specs.View.{node};
ghost use Rattle.model.specs.Operations.{first_of, refuses_read};
ghost use Rattle.model.specs.RegisterRule.{gives, gives_all, leaves, leaves_all};

use crate::burst::Direction;
use crate::chip::Controller;
use crate::refusal::Refusal;
use crate::register::Register;

/// What VERSION reads as.
const VERSION: u8 = 0x07;

/// Whether a buffer takes so many bytes from a place on.
fn has_room(length: usize, place: usize, count: usize) -> bool
    ensures { result ≡ nat_le (place + count) length }
{
    place.checked_add(count).is_some_and(|end| end <= length)
}

impl Controller {
    /// The byte that a register gives; reading RX steps RX_ADDR on.
    fn read_byte(&mut self, register: Register) -> u8
        ensures gives { result ≡ gives (ruled register) (node self.old) }
        ensures leaves { node self.new ≡ leaves (ruled register) (node self.old) }
    {
        match register {
            Register::Version => VERSION,
            Register::Setting => self.settings.setting,
            Register::IdleWaitLen => self.settings.idle_wait_len,
            Register::TxWaitLen => self.settings.tx_wait_len,
            Register::Filter => self.settings.filters.filter,
            Register::Filter1 => self.settings.filters.filter1,
            Register::Filter2 => self.settings.filters.filter2,
            Register::DivLsL => self.settings.div_ls_l,
            Register::DivLsH => self.settings.div_ls_h,
            Register::DivHsL => self.settings.div_hs_l,
            Register::DivHsH => self.settings.div_hs_h,
            Register::IntFlag => self.int_flag(),
            Register::IntMask => self.settings.int_mask,
            Register::Rx => self.rx.next_byte(),
            Register::RxAddr => self.rx.address(),
            Register::RxPageFlag => self.rx.page_flag(),
            Register::Tx | Register::RxCtrl | Register::TxCtrl => 0,
        }
    }

    #[tactic(auto, using(crate::proofs::Runs::read_steps))]
    fn read_all(&mut self, register: Register, part: &mut [u8])
        ensures gives { part.new ≡ gives_all (ruled register) (length part.old) (node self.old) }
        ensures leaves { node self.new ≡ leaves_all (ruled register) (length part.old) (node self.old) }
    {
        for byte in part.iter_mut() {
            *byte = self.read_byte(register);
        }
    }

    /// Reads so many bytes of a register into a buffer from a place on.
    #[tactic(auto, unfolding(crate::specs::Bursts::after_read, crate::specs::Bursts::buffer_read))]
    pub fn read(
        &mut self,
        register: u8,
        buffer: &mut [u8],
        place: usize,
        count: usize,
    ) -> Result<(), Refusal>
        ensures refuses { refused_as result ≡ first_of (refuses_read register count place (length buffer.old)) }
        ensures after { node self.new ≡ after_read register count place (length buffer.old) (node self.old) }
        ensures buffer { buffer.new ≡ buffer_read register count place (node self.old) buffer.old }
    {
        let found = Register::for_burst(register, Direction::Read, count)?;
        if !has_room(buffer.len(), place, count) {
            return Err(Refusal::Buffer);
        }
        self.read_all(found, &mut buffer[place..place + count]);
        Ok(())
    }
}
