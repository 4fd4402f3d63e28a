use super::*;
use std::test::Fail;

#[test]
fn crc_of_known_messages(rt: HostRuntime) {
    assert_eq!(rt; crc(&[]), 0xFFFF);
    assert_eq!(rt; crc(&[0x02, 0x07]), 0x1241);
    assert_eq!(rt; crc(b"123456789"), 0x4B37);
    assert_eq!(rt; crc(&[0x0C, 0x0D, 0x01, 0xCD]), 0xB252);
}

#[test]
fn header_is_split_off(rt: HostRuntime) -> Result<(), Fail> {
    let (header, rest) = Header::split(&[0x0C, 0x0D, 0x01, 0xCD]).ok_or("too few bytes")?;
    assert_eq!(rt; header.source, 0x0C);
    assert_eq!(rt; header.destination, 0x0D);
    assert_eq!(rt; header.length, 0x01);
    assert_eq!(rt; rest, [0xCD].as_slice());
    assert!(rt; Header::split(&[0x0C, 0x0D]).is_none());
    Ok(())
}

#[test]
fn filter_takes_what_it_should(rt: HostRuntime) {
    let filters = Filters {
        filter: 0x0D,
        filter1: 0x20,
        filter2: 0x22,
    };
    assert!(rt; filters.accept(0x0C, 0x0D), "to it alone");
    assert!(rt; filters.accept(0x0C, 0x20), "multicast");
    assert!(rt; !filters.accept(0x0C, 0x21), "to another");
    assert!(rt; filters.accept(0x0C, 255), "broadcast");
    assert!(rt; !filters.accept(0x0D, 255), "its own");
}

#[test]
fn first_zero_keeps_the_line(rt: HostRuntime) {
    assert_eq!(rt; reversed_source(0x0C), 0x30);
    assert_eq!(rt; arbitrate(0x0C, 0x0D), Arbitration::First);
    assert_eq!(rt; arbitrate(0x0D, 0x0C), Arbitration::Second);
    assert_eq!(rt; arbitrate(0x0D, 0x0D), Arbitration::Tie);
}

#[test]
fn a_frame_reads_as_it_was_sent(rt: HostRuntime) -> Result<(), Fail> {
    let heap = rt.alloc();
    let levels = frame_levels(heap, &[0x0C, 0x0D, 0x01, 0xCD])?;
    assert_eq!(rt; levels.len(), 60);
    let reading = read_frame(heap, &levels)?.ok_or("not ended")?;
    assert_eq!(rt; reading.ending, Ending::Right);
    assert_eq!(rt;
        reading.bytes.as_slice(),
        [0x0C, 0x0D, 0x01, 0xCD, 0x52, 0xB2].as_slice()
    );
    assert_eq!(rt; reading.levels, 60);
    Ok(())
}

#[test]
fn a_frame_that_is_cut_or_pulled(rt: HostRuntime) -> Result<(), Fail> {
    let heap = rt.alloc();
    let mut levels = frame_levels(heap, &[0x0C, 0x0D, 0x01, 0xCD])?;
    assert!(rt; levels.len() == 60);
    assert!(rt;
        read_frame(heap, &levels[0..59])?.is_none(),
        "one level short"
    );
    levels[31] = false;
    let reading = read_frame(heap, &levels)?.ok_or("not ended")?;
    assert_eq!(rt; reading.ending, Ending::Broken, "a data bit pulled");
    Ok(())
}

#[test]
fn what_is_no_message_has_no_frame(rt: HostRuntime) {
    let heap = rt.alloc();
    assert_eq!(rt;
        frame_levels(heap, &[0x0C, 0x0D]).err(),
        Some(MessageError::NoHeader)
    );
    assert_eq!(rt;
        frame_levels(heap, &[0x0C, 0x0D, 254]).err(),
        Some(MessageError::TooLong)
    );
    assert_eq!(rt;
        frame_levels(heap, &[0x0C, 0x0D, 2, 0xCD]).err(),
        Some(MessageError::WrongLength)
    );
}
