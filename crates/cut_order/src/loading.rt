//! The order on its way into a controller, register by register.

use crate::screen::{PLANNER, PLOTTER, Station};
use controller::{Controller, Refusal, Register, register_number, tx_ctrl};
use line::{new_table, port_read, port_write};

/// The stations on the line.
const STATIONS: usize = 4;

/// INT_FLAG bit 4: no page waits.
const NONE_WAITS: u8 = 0x10;

/// The hosts of the stations, who tell what they do with their controllers.
#[derive(Drop)]
pub(crate) struct Hosts<'a> {
    rt: &'a HostRuntime,
    table: [Controller; STATIONS],
}

impl<'a> Hosts<'a> {
    pub(crate) fn new(rt: &'a HostRuntime) -> Hosts<'a> {
        Hosts {
            rt,
            table: [Controller::new(); STATIONS],
        }
    }

    fn read(&mut self, station: Station, register: u8) -> Result<u8, Refusal> {
        let mut value = [0];
        port_read(
            &mut self.table,
            station.controller,
            register,
            &mut value,
            0,
            1,
        )?;
        Ok(value[0])
    }

    fn write(&mut self, station: Station, register: Register, bytes: &[u8]) -> Result<(), Refusal> {
        port_write(
            &mut self.table,
            station.controller,
            register.number(),
            bytes,
        )
    }

    /// Writes a message into the TX page from place 0 on, byte by byte.
    fn load(&mut self, station: Station, message: &[u8]) -> Result<(), Refusal> {
        self.write(station, Register::TxCtrl, &[tx_ctrl::ZERO_POINTER])?;
        for byte in message {
            self.write(station, Register::Tx, &[*byte])?;
        }
        Ok(())
    }

    /// What a register reads, found by its name.
    fn tell_register(&mut self, station: Station, name: &str) -> anyhow::Result<()> {
        let rt = self.rt;
        let Some(number) = register_number(name) else {
            println!(rt; "     {name} is no register")?;
            return Ok(());
        };
        let value = self.read(station, number)?;
        println!(rt; "     {name:<13} 0x{number:02X} reads 0x{value:02X}")?;
        Ok(())
    }

    fn tell_waiting(&mut self, station: Station) -> anyhow::Result<()> {
        let rt = self.rt;
        let flags = self.read(station, Register::IntFlag.number())?;
        let page = if flags & NONE_WAITS == 0 {
            "a page"
        } else {
            "no page"
        };
        println!(rt; "     INT_FLAG reads 0x{flags:02X}: {page} waits")?;
        Ok(())
    }

    fn tell_start(&mut self, station: Station) -> anyhow::Result<()> {
        let rt = self.rt;
        match self.write(station, Register::TxCtrl, &[tx_ctrl::START]) {
            Ok(()) => println!(rt; "     START is taken")?,
            Err(refusal) => {
                let number = refusal.number();
                println!(rt; "     START is refused with {number}: {refusal}")?;
            }
        }
        self.tell_waiting(station)
    }

    fn tell_registers(&mut self) -> anyhow::Result<()> {
        let rt = self.rt;
        self.write(PLANNER, Register::Filter, &[PLANNER.address])?;
        println!(rt;
            "\n3. The planner's host sets FILTER in its controller, and reads registers by their names:"
        )?;
        for name in ["VERSION", "IDLE_WAIT_LEN", "TX_WAIT_LEN", "FILTER", "SPEED"] {
            self.tell_register(PLANNER, name)?;
        }
        self.tell_waiting(PLANNER)
    }

    fn tell_order(&mut self, message: &[u8]) -> anyhow::Result<()> {
        let rt = self.rt;
        self.load(PLANNER, message)?;
        let count = message.len();
        println!(rt;
            "   It writes the {count} bytes of the message to TX, one by one, and START to TX_CTRL:"
        )?;
        self.tell_start(PLANNER)
    }

    fn tell_too_long(&mut self) -> anyhow::Result<()> {
        let rt = self.rt;
        self.load(PLOTTER, &[PLOTTER.address, PLANNER.address, 254])?;
        println!(rt;
            "   The plotter's host tries the same with a length byte that no frame has, 254:"
        )?;
        self.tell_start(PLOTTER)
    }

    /// The order STARTed at the planner, and a page at the plotter that cannot be.
    pub(crate) fn tell_loading(&mut self, message: &[u8]) -> anyhow::Result<()> {
        new_table(&mut self.table)?;
        self.tell_registers()?;
        self.tell_order(message)?;
        self.tell_too_long()
    }
}
