//! Reads and writes of the three devices, with worked values.

use super::*;
use std::test::Fail;

#[test]
fn registers_read_as_the_data_sheet_says(rt: HostRuntime) -> Result<(), Fail> {
    let mut clint = Clint::new();
    assert_eq!(rt; clint.read(0x4000, 0), 0xffff_ffff);
    clint.write(0x4000, 1000);
    clint.write(0x4004, 0);
    clint.write(0, 3);
    assert_eq!(rt; clint.read(0, 0), 1);
    assert!(rt; clint.msip());
    assert_eq!(rt; clint.read(0xbff8, 99_999), 999);
    assert!(rt; !clint.mtip(99_999));
    assert_eq!(rt; clint.deadline(99_999), Some(100_000));
    assert!(rt; clint.mtip(100_000));
    assert_eq!(rt; clint.deadline(100_000), None);

    let mut rtc = Rtc::new();
    assert_eq!(rt; rtc.read(0), Err(NeedClock));
    rtc.give(0x0123_4567_89ab_cdef);
    assert_eq!(rt; rtc.read(0), Ok(0x89ab_cdef));
    assert_eq!(rt; rtc.read(4), Ok(0x0123_4567));
    assert_eq!(rt; rtc.in_hand(), None);

    let mut finisher = Finisher::new();
    finisher.write(0, 0x0007_3333);
    finisher.write(0, 0x5555);
    assert_eq!(rt; finisher.ended(), Some(7));
    Ok(())
}
