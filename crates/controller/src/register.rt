ghost use Rattle.std.specs.Prelude.{◌≡◌, ◌==◌, option_map, IfOk};
ghost use Rattle.controller.specs.Bursts.{allows, burst_number, refuses_burst};
ghost use Rattle.controller.specs.Refusal.{refused_as};
ghost use Rattle.controller.specs.Register.{Found, place};
ghost use Rattle.model.specs.Operations.{first_of};
ghost use Rattle.model.specs.Registers.{access_of, number_of};

use crate::burst::{Direction, is_burst};
use crate::refusal::Refusal;

/// The registers, by the names of the data sheet.
#[derive(Clone, Copy, PartialEq, Eq, Debug)]
pub enum Register {
    Version = 0x00,
    Setting = 0x01,
    IdleWaitLen = 0x02,
    TxWaitLen = 0x03,
    Filter = 0x04,
    DivLsL = 0x05,
    DivLsH = 0x06,
    DivHsL = 0x07,
    DivHsH = 0x08,
    IntFlag = 0x09,
    IntMask = 0x0A,
    Rx = 0x0B,
    Tx = 0x0C,
    RxCtrl = 0x0D,
    TxCtrl = 0x0E,
    RxAddr = 0x0F,
    RxPageFlag = 0x10,
    Filter1 = 0x11,
    Filter2 = 0x12,
}

impl Register {
    /// The register's number.
    pub fn number(self) -> u8
        ensures { result ≡ place self }
    {
        self as u8
    }

    /// The register of a name in the data sheet; an unknown name gives nothing.
    pub fn by_name(name: &str) -> Option<Register>
        ensures { option_map place result ≡ number_of name.now }
    {
        match name {
            "VERSION" => Some(Register::Version),
            "SETTING" => Some(Register::Setting),
            "IDLE_WAIT_LEN" => Some(Register::IdleWaitLen),
            "TX_WAIT_LEN" => Some(Register::TxWaitLen),
            "FILTER" => Some(Register::Filter),
            "DIV_LS_L" => Some(Register::DivLsL),
            "DIV_LS_H" => Some(Register::DivLsH),
            "DIV_HS_L" => Some(Register::DivHsL),
            "DIV_HS_H" => Some(Register::DivHsH),
            "INT_FLAG" => Some(Register::IntFlag),
            "INT_MASK" => Some(Register::IntMask),
            "RX" => Some(Register::Rx),
            "TX" => Some(Register::Tx),
            "RX_CTRL" => Some(Register::RxCtrl),
            "TX_CTRL" => Some(Register::TxCtrl),
            "RX_ADDR" => Some(Register::RxAddr),
            "RX_PAGE_FLAG" => Some(Register::RxPageFlag),
            "FILTER1" => Some(Register::Filter1),
            "FILTER2" => Some(Register::Filter2),
            _ => None,
        }
    }

    /// A host may move bytes this way.
    fn allows(self, way: Direction) -> bool
        ensures { result ≡ allows (access_of (place self)) way }
    {
        match way {
            Direction::Write => !matches!(
                self,
                Register::Version | Register::IntFlag | Register::Rx | Register::RxPageFlag
            ),
            Direction::Read => !matches!(self, Register::Tx | Register::RxCtrl | Register::TxCtrl),
        }
    }

    /// TX takes several bytes at once, and RX gives them.
    fn moves_several(self, way: Direction) -> bool
        ensures { result ≡ (place self == burst_number way) }
    {
        match way {
            Direction::Write => self == Register::Tx,
            Direction::Read => self == Register::Rx,
        }
    }

    /// The register of a number if so many bytes may go this way at once, or the first refusal that fits.
    pub(crate) fn for_burst(number: u8, way: Direction, count: usize) -> Result<Register, Refusal>
        ensures refuses { refused_as result ≡ first_of (refuses_burst way number count) }
        ensures found { IfOk result (λ found. place found ≡ number) }
    {
        let found = Register::try_from(number)?;
        if !found.allows(way) {
            return Err(Refusal::NoAccess);
        }
        if !is_burst(found.moves_several(way), count) {
            return Err(Refusal::ByteCount);
        }
        Ok(found)
    }
}

/// The register's number.
impl From<Register> for u8 {
    ghost from_gives = { λ register number. number ≡ place register };

    fn from(register: Register) -> u8 {
        register.number()
    }
}

/// The register of a number; none above the last.
impl TryFrom<u8> for Register {
    type Error = Refusal;

    ghost try_from_gives = { Found };

    fn try_from(number: u8) -> Result<Register, Refusal> {
        match number {
            0x00 => Ok(Register::Version),
            0x01 => Ok(Register::Setting),
            0x02 => Ok(Register::IdleWaitLen),
            0x03 => Ok(Register::TxWaitLen),
            0x04 => Ok(Register::Filter),
            0x05 => Ok(Register::DivLsL),
            0x06 => Ok(Register::DivLsH),
            0x07 => Ok(Register::DivHsL),
            0x08 => Ok(Register::DivHsH),
            0x09 => Ok(Register::IntFlag),
            0x0A => Ok(Register::IntMask),
            0x0B => Ok(Register::Rx),
            0x0C => Ok(Register::Tx),
            0x0D => Ok(Register::RxCtrl),
            0x0E => Ok(Register::TxCtrl),
            0x0F => Ok(Register::RxAddr),
            0x10 => Ok(Register::RxPageFlag),
            0x11 => Ok(Register::Filter1),
            0x12 => Ok(Register::Filter2),
            0x13.. => Err(Refusal::NoRegister),
        }
    }
}

/// The number of a register by its name in the data sheet; an unknown name gives nothing.
pub fn register_number(name: &str) -> Option<u8>
    ensures { result ≡ number_of name.now }
{
    let register = Register::by_name(name)?;
    Some(register.number())
}
