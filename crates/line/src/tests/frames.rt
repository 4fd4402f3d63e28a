use super::{read_one, write_one};
use crate::{bit_time, look, port_write, run};
use controller::{Controller, Refusal, Register, tx_ctrl};
use std::test::Fail;

/// INT_MASK: a read page is ready.
const PAGE_READY: u8 = 0x02;

/// A new controller begins in bit time 31, and the frame of four bytes and their CRC has 60 levels.
const LAST_STOP_BIT: u16 = 90;

/// Controller 0 waits with a page, and controller 1 tells of one that comes.
fn one_waits(table: &mut [Controller]) -> Result<(), Refusal> {
    port_write(table, 0, Register::Tx.number(), &[0x0C, 0x0D, 0x01, 0xCD])?;
    write_one(table, 0, Register::TxCtrl, tx_ctrl::START)?;
    write_one(table, 1, Register::IntMask, PAGE_READY)
}

#[test]
fn a_run_stops_when_the_page_has_come(rt: HostRuntime) -> Result<(), Fail> {
    let mut table = [Controller::new(); 2];
    one_waits(&mut table)?;
    assert_eq!(rt; run(&mut table, 1, 50)?, 50, "the limit");
    assert_eq!(rt; run(&mut table, 1, 1000)?, LAST_STOP_BIT - 50);
    assert_eq!(rt; run(&mut table, 1, 1000)?, 0, "low already");
    assert_eq!(rt; run(&mut table, 2, 1).err(), Some(Refusal::NoController));
    assert_eq!(rt; run(&mut [], 0, 1).err(), Some(Refusal::TableSize));
    Ok(())
}

#[test]
fn a_bit_time_marks_what_becomes_of_a_frame(rt: HostRuntime) -> Result<(), Fail> {
    let mut table = [Controller::new(); 2];
    one_waits(&mut table)?;
    for made in 1..=LAST_STOP_BIT {
        let answer = bit_time(&mut table, false)?;
        let [sender, receiver] = answer.marks() else {
            return Err(Fail::new("not two controllers"));
        };
        assert_eq!(rt; sender.began, made == 31, "at {made}");
        assert_eq!(rt; sender.sent, made == LAST_STOP_BIT, "at {made}");
        assert_eq!(rt; receiver.made_ready, made == LAST_STOP_BIT, "at {made}");
        assert!(rt;
            !sender.drew_back && !sender.gave_up && !receiver.began,
            "at {made}"
        );
        if made <= 31 || made == LAST_STOP_BIT {
            assert_eq!(rt; answer.level(), made != 31, "at {made}");
        }
    }
    assert_eq!(rt; bit_time(&mut [], false).err(), Some(Refusal::TableSize));
    assert_eq!(rt;
        bit_time(&mut [Controller::new(); 17], true).err(),
        Some(Refusal::TableSize)
    );
    Ok(())
}

#[test]
fn a_look_copies_the_page_that_came(rt: HostRuntime) -> Result<(), Fail> {
    let mut table = [Controller::new(); 2];
    one_waits(&mut table)?;
    run(&mut table, 1, 1000)?;
    write_one(&mut table, 1, Register::RxAddr, 7)?;
    let mut buffer = [0xEE; 6];
    assert_eq!(rt; look(&mut table, 1, 0, &mut buffer)?, 6);
    assert_eq!(rt;
        buffer.as_slice(),
        [0x0C, 0x0D, 0x01, 0xCD, 0, 0].as_slice()
    );
    let mut buffer = [0xEE; 6];
    assert_eq!(rt; look(&mut table, 1, 254, &mut buffer)?, 2);
    assert_eq!(rt;
        buffer.as_slice(),
        [0, 0, 0xEE, 0xEE, 0xEE, 0xEE].as_slice()
    );
    assert_eq!(rt;
        read_one(&mut table, 1, Register::RxAddr)?,
        7,
        "RX_ADDR is put back"
    );
    Ok(())
}
