//! The steps of an order, told one by one.

use crate::drawing;
use crate::screen::{KNIFE, PLANNER, PLOTTER, SPREADER, Station};
use crate::tally::{Tally, every_burst};
use anyhow::{Context, anyhow};
use frame::{
    Arbitration, BYTE_LEVELS, Ending, Filters, Header, Reading, arbitrate, crc, read_frame,
    reversed_source,
};
use model::worked_examples;
use order::{Burst, CutOrder, Delivery, deliver_disturbed};

/// An order's message, split once into header and data, and told step by step.
#[derive(Drop)]
pub(crate) struct Story<'a> {
    rt: &'a HostRuntime,
    message: &'a [u8],
    header: Header,
    data: &'a [u8],
}

impl<'a> Story<'a> {
    pub(crate) fn new(rt: &'a HostRuntime, message: &'a [u8]) -> anyhow::Result<Story<'a>> {
        let (header, data) = Header::split(message).context("the message has no header")?;
        Ok(Story {
            rt,
            message,
            header,
            data,
        })
    }

    pub(crate) fn tell_order(&self, order: &CutOrder) -> anyhow::Result<()> {
        let rt = self.rt;
        let marker = order.marker;
        let sizes = order.lines.len();
        let length = self.header.length;
        println!(rt;
            "\n1. The nesting screen orders marker {marker} cut in {sizes} sizes, {length} data bytes:"
        )?;
        for row in self.data.chunks(16) {
            let text = drawing::hex(rt.alloc(), row)?;
            println!(rt; "     {text}")?;
        }
        Ok(())
    }

    pub(crate) fn tell_frame(&self) -> anyhow::Result<()> {
        let rt = self.rt;
        let Header {
            source,
            destination,
            length,
        } = self.header;
        let count = self.message.len();
        let sum = crc(self.message);
        let sent = drawing::hex(rt.alloc(), &sum.to_le_bytes())?;
        println!(rt;
            "\n2. It goes from the planner, 0x{source:02X}, to the spreader, 0x{destination:02X}."
        )?;
        println!(rt;
            "   The message: {source:02X} {destination:02X} {length:02X} and the data, {count} bytes."
        )?;
        println!(rt; "   Its CRC is 0x{sum:04X}, sent {sent} behind the message.")?;
        Ok(())
    }

    pub(crate) fn tell_levels(&self, delivery: &Delivery) -> anyhow::Result<()> {
        let rt = self.rt;
        let Delivery { levels, reading } = delivery;
        let Some(
            Reading {
                ending: Ending::Right,
                bytes,
                ..
            },
        ) = reading
        else {
            return Err(anyhow!("the frame does not read as right"));
        };
        let count = levels.len();
        println!(rt;
            "\n4. On the line it is {count} levels: for each byte a start bit 0, eight bits with the lowest"
        )?;
        println!(rt;
            "   first, and a stop bit 1. Five bytes a row, from the source byte to the CRC:"
        )?;
        for (row, levels) in bytes
            .as_slice()
            .chunks(5)
            .zip(levels.as_slice().chunks(5 * BYTE_LEVELS))
        {
            let hex = drawing::hex(rt.alloc(), row)?;
            let drawn = drawing::line(rt.alloc(), levels)?;
            println!(rt; "     {hex:<14}  {drawn}")?;
        }
        Ok(())
    }

    fn tell_source(&self, station: Station) -> anyhow::Result<()> {
        let rt = self.rt;
        let name = station.name;
        let source = station.address;
        let reversed = reversed_source(source);
        // sent lowest first, which is the reversed byte from its highest bit on
        println!(rt;
            "     {name} 0x{source:02X}: source bits as sent {reversed:08b}, reversed byte 0x{reversed:02X}"
        )?;
        Ok(())
    }

    pub(crate) fn tell_arbitration(&self) -> anyhow::Result<()> {
        let rt = self.rt;
        println!(rt; "\n5. The plotter begins in the same bit time.")?;
        self.tell_source(PLANNER)?;
        self.tell_source(PLOTTER)?;
        let first = match arbitrate(PLANNER.address, PLOTTER.address) {
            Arbitration::First => "planner goes first, and the plotter draws back",
            Arbitration::Second => "plotter goes first, and the planner draws back",
            Arbitration::Tie => "two send alike, and none draws back",
        };
        let bit = (PLANNER.address ^ PLOTTER.address).trailing_zeros();
        println!(rt;
            "   They differ first in source bit {bit}. A 0 is stronger than a 1, which is what the reversed"
        )?;
        println!(rt; "   bytes compare: the {first}.")?;
        Ok(())
    }

    /// How levels read, in words.
    fn tell_as(&self, what: &str, reading: Option<&Reading>) -> anyhow::Result<()> {
        let rt = self.rt;
        let Some(
            Reading {
                ending,
                bytes,
                levels,
            },
        ) = reading
        else {
            println!(rt; "     {what}: not ended yet")?;
            return Ok(());
        };
        let count = bytes.len();
        let how = match ending {
            Ending::Right => "right",
            Ending::Broken => "broken",
        };
        let whose = match ending {
            Ending::Right if bytes.as_slice().starts_with(self.message) =>
                ", the order that was sent",
            Ending::Right => ", ANOTHER order",
            Ending::Broken => " read",
        };
        println!(rt; "     {what}: {how} after {levels} levels, {count} bytes{whose}")?;
        Ok(())
    }

    pub(crate) fn tell_reading(&self, delivery: &Delivery) -> anyhow::Result<()> {
        let rt = self.rt;
        println!(rt;
            "\n6. Once the plotter has sent its frame, the order goes out. A receiver that was idle reads:"
        )?;
        let levels = delivery.levels.as_slice();
        let (_, most) = levels.split_last().context("the frame has no levels")?;
        self.tell_as("all but the last", read_frame(rt.alloc(), most)?.as_ref())?;
        self.tell_as("all of them", delivery.reading.as_ref())
    }

    fn tell_filter(&self, station: Station) -> anyhow::Result<()> {
        let rt = self.rt;
        let name = station.name;
        let own = station.address;
        let filters = Filters {
            filter: own,
            filter1: 0xFF,
            filter2: 0xFF,
        };
        let taken = if filters.accept(self.header.source, self.header.destination) {
            "takes it"
        } else {
            "drops it"
        };
        println!(rt; "     {name}, FILTER 0x{own:02X}: {taken}")?;
        Ok(())
    }

    pub(crate) fn tell_filters(&self) -> anyhow::Result<()> {
        let rt = self.rt;
        println!(rt; "\n7. Each controller's filter looks at the source and the destination:")?;
        for station in [SPREADER, KNIFE, PLANNER] {
            self.tell_filter(station)?;
        }
        Ok(())
    }

    /// A burst in the data, and one that meets the stop bit of a byte.
    pub(crate) fn tell_bursts(&self) -> anyhow::Result<()> {
        let rt = self.rt;
        println!(rt; "\n8. A motor pulls the line low while the order is sent:")?;
        for (start, count) in [(402, 3), (405, 8)] {
            let burst = Burst::new(start, count).context("the burst is too long")?;
            let delivery = deliver_disturbed(rt.alloc(), self.message, &burst)?;
            let what = format!(in rt.alloc(); "{count} levels pulled behind the first {start}")?;
            self.tell_as(what.as_str(), delivery.reading.as_ref())?;
        }
        Ok(())
    }

    pub(crate) fn tell_all_bursts(&self, places: usize) -> anyhow::Result<()> {
        let rt = self.rt;
        for count in [1, 4, 16] {
            let Tally {
                bursts,
                same,
                other,
                broken,
                unfinished,
            } = every_burst(rt.alloc(), self.message, places, count)?;
            println!(rt;
                "   Pulls of length {count} at each of {bursts} places, clear of the length byte:"
            )?;
            println!(rt;
                "     {broken} broken, {unfinished} not ended, {same} right as sent, {other} another order"
            )?;
        }
        Ok(())
    }

    pub(crate) fn tell_promises(&self) -> anyhow::Result<()> {
        let rt = self.rt;
        let examples = worked_examples();
        println!(rt;
            "\nWhat stands behind this, proved for every message and not only for this order:"
        )?;
        println!(rt; "   frame::crc         is the CRC of the Modbus serial line standard.")?;
        println!(rt;
            "   frame::arbitrate   names who drives 0 in the first source bit in which two senders differ."
        )?;
        println!(rt;
            "   frame::read_frame  reads a frame as what was sent, at its last level and at none before, and"
        )?;
        println!(rt;
            "                      never as another where up to 16 levels in a row, none of the length byte,"
        )?;
        println!(rt; "                      are pulled low.")?;
        println!(rt;
            "   line::port_write   and port_read refuse and do just what the register rules say; a message that is"
        )?;
        println!(rt;
            "                      written to TX and STARTed where no page waits is what then waits."
        )?;
        println!(rt; "   model::worked_examples holds {examples} worked examples of the rules.")?;
        Ok(())
    }
}
