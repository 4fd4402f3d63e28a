ghost use Rattle.std.specs.Prelude.{◌≡◌, Some};
ghost use Rattle.controller.specs.Refusal.{number_of, says};

use std::error::Error;
use std::fmt;

/// Why a call was turned away: a case for each number.
#[derive(Clone, Copy, PartialEq, Eq, Debug)]
pub enum Refusal {
    /// The table has 0 places, or more than 16.
    TableSize = 1,
    /// The controller number is not in the table.
    NoController = 2,
    /// The register number is above 0x12.
    NoRegister = 3,
    /// The register cannot be written, or cannot be read.
    NoAccess = 4,
    /// No byte, too many, or several at a register that takes one.
    ByteCount = 5,
    /// The register does not admit the value.
    Value = 6,
    /// A transfer on the wires that frames no write and no read.
    NoShape = 7,
    /// An I2C device byte that is not this controller's.
    OtherDevice = 8,
    /// No page is ready, or a claim on it is out.
    NoPageReady = 9,
    /// The place and the number of bytes pass the end of the buffer.
    Buffer = 10,
    /// A page waits already.
    PageWaits = 11,
    /// A bench line that has no meaning.
    MalformedLine = 12,
}

impl Refusal {
    /// The number that stands for the refusal.
    pub fn number(self) -> u8
        ensures { result ≡ number_of self }
    {
        self as u8
    }

    /// The refusal in words.
    fn words(self) -> &'static str
        ensures { result.now ≡ says self }
    {
        match self {
            Refusal::TableSize => "table of 0 or more than 16 places",
            Refusal::NoController => "no such controller",
            Refusal::NoRegister => "no such register",
            Refusal::NoAccess => "register not writable or not readable",
            Refusal::ByteCount => "number of bytes",
            Refusal::Value => "value not admitted",
            Refusal::NoShape => "transfer of no shape",
            Refusal::OtherDevice => "device byte of another controller",
            Refusal::NoPageReady => "no page ready",
            Refusal::Buffer => "buffer too short",
            Refusal::PageWaits => "a page waits",
            Refusal::MalformedLine => "malformed line",
        }
    }
}

impl fmt::Display for Refusal {
    ghost output = { λ e. Some (says e) };

    fn fmt<W: fmt::Write>(&self, f: &mut fmt::Formatter<W>) -> fmt::Result {
        f.write_str(self.words())
    }
}

impl Error for Refusal {}
