//! A line on which one controller sends frames back to back.

use controller::{Controller, Marks, Refusal, Register, rx_ctrl, tx_ctrl};
use frame::{HEADER_BYTES, MAX_DATA};
use line::{MAX_CONTROLLERS, bit_time, port_write};

/// The bytes of the longest message, which fills a page.
const LONGEST: usize = HEADER_BYTES + MAX_DATA as usize;

/// Who sends.
const SENDER: usize = 0;

#[derive(Clone, Copy, Default)]
pub(crate) struct Tally {
    pub(crate) frames: u64,
    pub(crate) pages: u64,
    pub(crate) ones: u64,
}

/// The controllers, and what has come about on their line.
#[derive(Drop)]
struct Traffic<'a> {
    table: &'a mut [Controller],
    tally: Tally,
}

impl Traffic<'_> {
    fn write(
        &mut self,
        controller: usize,
        register: Register,
        bytes: &[u8],
    ) -> Result<(), Refusal> {
        port_write(self.table, controller, register.number(), bytes)
    }

    fn start(&mut self) -> Result<(), Refusal> {
        self.write(SENDER, Register::TxCtrl, &[tx_ctrl::START])
    }

    /// The same message in both TX pages, and the first of them waits.
    fn load(&mut self) -> Result<(), Refusal> {
        let mut message = [0x55; LONGEST];
        message[..HEADER_BYTES].copy_from_slice(&[0x0C, 0xFF, MAX_DATA]);
        self.write(SENDER, Register::Tx, &message)?;
        self.start()?;
        self.write(SENDER, Register::Tx, &message)
    }

    /// Hands back the pages that were made ready, and counts them.
    fn hand_back(&mut self, marks: &[Marks]) -> Result<(), Refusal> {
        for (controller, mark) in marks.iter().enumerate() {
            if mark.made_ready {
                self.write(controller, Register::RxCtrl, &[rx_ctrl::SWITCH])?;
                self.tally.pages = self.tally.pages.saturating_add(1);
            }
        }
        Ok(())
    }

    /// One bit time, with what the hosts do after it.
    fn turn(&mut self) -> Result<(), Refusal> {
        let answer = bit_time(self.table, false)?;
        if answer.level() {
            self.tally.ones = self.tally.ones.saturating_add(1);
        }
        self.hand_back(answer.marks())?;
        if answer.marks().get(SENDER).is_some_and(|marks| marks.sent) {
            self.tally.frames = self.tally.frames.saturating_add(1);
            self.start()?;
        }
        Ok(())
    }
}

/// So many bit times of so many controllers.
pub(crate) fn drive(controllers: usize, bit_times: u32) -> Result<Tally, Refusal> {
    let mut room = [Controller::new(); MAX_CONTROLLERS];
    let table = room.get_mut(0..controllers).ok_or(Refusal::TableSize)?;
    let mut traffic = Traffic {
        table,
        tally: Tally::default(),
    };
    traffic.load()?;
    for _ in 0..bit_times {
        traffic.turn()?;
    }
    Ok(traffic.tally)
}
