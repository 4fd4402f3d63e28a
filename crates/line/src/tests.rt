use super::*;
use controller::{Controller, Refusal, Register, register_number, rx_ctrl, tx_ctrl};
use std::test::Fail;

mod frames;
mod looks;

fn refused_write(controller: usize, register: u8, bytes: &[u8]) -> Option<Refusal> {
    let mut table = [Controller::new(); 2];
    port_write(&mut table, controller, register, bytes).err()
}

fn refused_read(controller: usize, register: u8, place: usize, count: usize) -> Option<Refusal> {
    let mut table = [Controller::new(); 2];
    let mut buffer = [0; 300];
    port_read(&mut table, controller, register, &mut buffer, place, count).err()
}

fn read_one(
    table: &mut [Controller],
    controller: usize,
    register: Register,
) -> Result<u8, Refusal> {
    let mut buffer = [0];
    port_read(table, controller, register.number(), &mut buffer, 0, 1)?;
    Ok(buffer[0])
}

fn write_one(
    table: &mut [Controller],
    controller: usize,
    register: Register,
    value: u8,
) -> Result<(), Refusal> {
    port_write(table, controller, register.number(), &[value])
}

#[test]
fn tables_have_1_to_16_places(rt: HostRuntime) -> Result<(), Fail> {
    assert_eq!(rt; new_table(&mut []).err(), Some(Refusal::TableSize));
    assert_eq!(rt;
        new_table(&mut [Controller::new(); 17]).err(),
        Some(Refusal::TableSize)
    );
    new_table(&mut [Controller::new(); 16])?;
    new_table(&mut [Controller::new(); 1])?;
    Ok(())
}

#[test]
fn the_table_is_judged_first(rt: HostRuntime) {
    let mut large = [Controller::new(); 17];
    let mut buffer = [0];
    assert_eq!(rt;
        port_write(&mut [], 9, 99, &[]).err(),
        Some(Refusal::TableSize)
    );
    assert_eq!(rt;
        port_write(&mut large, 99, 99, &[]).err(),
        Some(Refusal::TableSize)
    );
    assert_eq!(rt;
        port_read(&mut [], 9, 99, &mut buffer, 0, 0).err(),
        Some(Refusal::TableSize)
    );
    assert_eq!(rt;
        port_read(&mut large, 99, 99, &mut buffer, 0, 0).err(),
        Some(Refusal::TableSize)
    );
}

#[test]
fn a_write_is_refused_by_the_first_rule_that_fits(rt: HostRuntime) {
    assert_eq!(rt; refused_write(2, 0x13, &[]), Some(Refusal::NoController));
    assert_eq!(rt; refused_write(0, 0x13, &[]), Some(Refusal::NoRegister));
    assert_eq!(rt; refused_write(0, 0xFF, &[0]), Some(Refusal::NoRegister));
    assert_eq!(rt; refused_write(0, 0x09, &[]), Some(Refusal::NoAccess));
    assert_eq!(rt; refused_write(0, 0x02, &[]), Some(Refusal::ByteCount));
    assert_eq!(rt; refused_write(0, 0x02, &[9, 9]), Some(Refusal::ByteCount));
    assert_eq!(rt; refused_write(0, 0x0C, &[0; 257]), Some(Refusal::ByteCount));
    assert_eq!(rt; refused_write(0, 0x0C, &[0; 256]), None);
    assert_eq!(rt; refused_write(1, 0x02, &[9]), Some(Refusal::Value));
    assert_eq!(rt; refused_write(1, 0x02, &[10]), None);
}

#[test]
fn read_only_registers_are_not_written(rt: HostRuntime) {
    for register in [0x00, 0x09, 0x0B, 0x10] {
        assert_eq!(rt; refused_write(0, register, &[0]), Some(Refusal::NoAccess));
    }
}

#[test]
fn values_that_are_not_admitted(rt: HostRuntime) {
    for (register, value) in [
        (Register::Setting, 0x02),
        (Register::Setting, 0x40),
        (Register::IdleWaitLen, 9),
        (Register::TxWaitLen, 0),
        (Register::RxCtrl, 0x20),
        (Register::RxCtrl, 0x12),
        (Register::TxCtrl, 0x80),
        (Register::TxCtrl, 0x12),
    ] {
        assert_eq!(rt;
            refused_write(0, register.number(), &[value]),
            Some(Refusal::Value)
        );
    }
    assert_eq!(rt; refused_write(0, 0x01, &[0x39]), None);
}

#[test]
fn a_start_wants_a_length_that_a_frame_has(rt: HostRuntime) -> Result<(), Fail> {
    let mut table = [Controller::new(); 1];
    port_write(&mut table, 0, 0x0C, &[0x0C, 0x0D, 254])?;
    assert_eq!(rt;
        port_write(&mut table, 0, 0x0E, &[tx_ctrl::START]).err(),
        Some(Refusal::Value)
    );
    write_one(&mut table, 0, Register::TxCtrl, tx_ctrl::ZERO_POINTER)?;
    port_write(&mut table, 0, 0x0C, &[0x0C, 0x0D, 253])?;
    write_one(&mut table, 0, Register::TxCtrl, tx_ctrl::START)?;
    assert_eq!(rt;
        read_one(&mut table, 0, Register::IntFlag)?,
        0x00,
        "the page waits"
    );
    write_one(&mut table, 0, Register::TxCtrl, tx_ctrl::START)?;
    write_one(&mut table, 0, Register::TxCtrl, tx_ctrl::ABORT)?;
    assert_eq!(rt;
        read_one(&mut table, 0, Register::IntFlag)?,
        0x10,
        "no page waits"
    );
    Ok(())
}

#[test]
fn a_read_is_refused_by_the_first_rule_that_fits(rt: HostRuntime) {
    assert_eq!(rt; refused_read(2, 0x13, 301, 0), Some(Refusal::NoController));
    assert_eq!(rt; refused_read(0, 0x13, 301, 0), Some(Refusal::NoRegister));
    assert_eq!(rt; refused_read(0, 0x0C, 301, 0), Some(Refusal::NoAccess));
    assert_eq!(rt; refused_read(0, 0x0D, 0, 1), Some(Refusal::NoAccess));
    assert_eq!(rt; refused_read(0, 0x0E, 0, 1), Some(Refusal::NoAccess));
    assert_eq!(rt; refused_read(0, 0x0B, 301, 0), Some(Refusal::ByteCount));
    assert_eq!(rt; refused_read(0, 0x0B, 301, 257), Some(Refusal::ByteCount));
    assert_eq!(rt; refused_read(0, 0x00, 0, 2), Some(Refusal::ByteCount));
    assert_eq!(rt; refused_read(0, 0x0B, 45, 256), Some(Refusal::Buffer));
    assert_eq!(rt; refused_read(0, 0x00, usize::MAX, 1), Some(Refusal::Buffer));
    assert_eq!(rt; refused_read(0, 0x0B, 44, 256), None);
}

#[test]
fn a_new_controller_reads_as_the_sheet_says(rt: HostRuntime) -> Result<(), Fail> {
    for (register, value) in [
        (Register::Version, 0x07),
        (Register::Setting, 0x10),
        (Register::IdleWaitLen, 10),
        (Register::TxWaitLen, 20),
        (Register::Filter, 0xFF),
        (Register::DivLsL, 0x5A),
        (Register::DivLsH, 0x01),
        (Register::DivHsL, 0x5A),
        (Register::DivHsH, 0x01),
        (Register::IntFlag, 0x10),
        (Register::IntMask, 0),
        (Register::Rx, 0),
        (Register::RxAddr, 0),
        (Register::RxPageFlag, 0),
        (Register::Filter1, 0xFF),
        (Register::Filter2, 0xFF),
    ] {
        assert_eq!(rt; read_one(&mut [Controller::new(); 1], 0, register)?, value);
    }
    Ok(())
}

#[test]
fn a_read_puts_its_bytes_at_the_place(rt: HostRuntime) -> Result<(), Fail> {
    let mut table = [Controller::new(); 2];
    let mut buffer = [0xEE; 4];
    write_one(&mut table, 1, Register::RxAddr, 254)?;
    port_read(&mut table, 1, 0x0B, &mut buffer, 1, 2)?;
    assert_eq!(rt; &buffer, &[0xEE, 0, 0, 0xEE]);
    assert_eq!(rt;
        read_one(&mut table, 1, Register::RxAddr)?,
        0,
        "RX_ADDR goes round"
    );
    assert_eq!(rt;
        read_one(&mut table, 0, Register::RxAddr)?,
        0,
        "the other stays"
    );
    Ok(())
}

#[test]
fn int_n_is_low_where_flag_and_mask_share_a_bit(rt: HostRuntime) -> Result<(), Fail> {
    let mut table = [Controller::new(); 1];
    assert!(rt; !table[0].int_n_low());
    write_one(&mut table, 0, Register::IntMask, 0xEF)?;
    assert!(rt; !table[0].int_n_low());
    write_one(&mut table, 0, Register::IntMask, 0x10)?;
    assert!(rt; table[0].int_n_low());
    write_one(&mut table, 0, Register::RxCtrl, rx_ctrl::RESET)?;
    assert!(rt; table[0].int_n_low(), "a reset keeps the mask");
    new_table(&mut table)?;
    assert!(rt; !table[0].int_n_low(), "a new controller masks all");
    Ok(())
}

#[test]
fn names_give_numbers(rt: HostRuntime) {
    assert_eq!(rt; register_number("VERSION"), Some(0x00));
    assert_eq!(rt; register_number("RX_PAGE_FLAG"), Some(0x10));
    assert_eq!(rt; register_number("FILTER2"), Some(0x12));
    assert_eq!(rt; register_number("filter"), None);
    assert_eq!(rt; register_number(""), None);
}

#[test]
fn registers_turn_into_numbers_and_back(rt: HostRuntime) {
    assert_eq!(rt; u8::from(Register::Filter2), 0x12);
    assert_eq!(rt; Register::try_from(0x12), Ok(Register::Filter2));
    assert_eq!(rt; Register::try_from(0x13), Err(Refusal::NoRegister));
}

/// What callers may hold, and copy.
#[derive(Clone, Copy)]
struct Held {
    controller: Controller,
    answer: Answer,
}

fn is_quiet(held: Held) -> bool {
    held.answer.level() && !held.controller.int_n_low()
}

#[test]
fn controllers_and_answers_are_copied(rt: HostRuntime) -> Result<(), Fail> {
    let mut table = [Controller::default(); 1];
    let answer = bit_time(&mut table, false)?;
    let held = Held {
        controller: table[0],
        answer,
    };
    assert!(rt; is_quiet(held) && is_quiet(held));
    Ok(())
}
