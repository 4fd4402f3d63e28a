use super::{read_one, write_one};
use crate::look;
use controller::{Controller, Refusal, Register};
use std::test::Fail;

fn refused_look(table: &mut [Controller], controller: usize) -> Option<Refusal> {
    look(table, controller, 255, &mut [0; 2]).err()
}

#[test]
fn a_look_is_refused_by_the_first_rule_that_fits(rt: HostRuntime) {
    assert_eq!(rt; refused_look(&mut [], 0), Some(Refusal::TableSize));
    assert_eq!(rt;
        refused_look(&mut [Controller::new(); 17], 17),
        Some(Refusal::TableSize)
    );
    assert_eq!(rt;
        refused_look(&mut [Controller::new(); 2], 2),
        Some(Refusal::NoController)
    );
    assert_eq!(rt;
        refused_look(&mut [Controller::new(); 2], 1),
        Some(Refusal::NoPageReady)
    );
}

#[test]
fn a_refused_look_changes_nothing(rt: HostRuntime) -> Result<(), Fail> {
    let mut table = [Controller::new(); 2];
    let mut buffer = [0xEE; 4];
    write_one(&mut table, 1, Register::RxAddr, 7)?;
    assert_eq!(rt;
        look(&mut table, 1, 200, &mut buffer).err(),
        Some(Refusal::NoPageReady)
    );
    assert_eq!(rt;
        look(&mut table, 2, 0, &mut buffer).err(),
        Some(Refusal::NoController)
    );
    assert_eq!(rt; &buffer, &[0xEE; 4]);
    assert_eq!(rt;
        read_one(&mut table, 1, Register::RxAddr)?,
        7,
        "RX_ADDR is put back"
    );
    Ok(())
}
