//! A number over the edge of a page, ranges, and a share.

use super::*;
use std::test::Fail;

#[test]
fn a_share_keeps_its_bytes(rt: HostRuntime) -> Result<(), Fail> {
    let mut ram = Ram::new(rt.alloc(), 64)?;
    assert_eq!(rt; ram.store(0x8000_0ffe, 4, 0x1234_5678), Ok(()));
    let copy = ram.share()?;
    assert_eq!(rt; ram.store(0x8000_0ffe, 4, 7), Ok(()));
    assert_eq!(rt; ram.load(0x8000_0ffe, 4), Ok(7));
    assert_eq!(rt; copy.load(0x8000_0ffe, 4), Ok(0x1234_5678));
    assert_eq!(rt; copy.load(0x8000_1000, 2), Ok(0x1234));
    assert_eq!(rt; copy.load(0x83ff_fffd, 4), Err(RamError::Outside));
    Ok(())
}

#[test]
fn a_range_is_copied_over_a_page_edge(rt: HostRuntime) -> Result<(), Fail> {
    let mut ram = Ram::new(rt.alloc(), 1)?;
    assert_eq!(rt; ram.copy_in(0x8000_0fff, b"\x01\x02\x03"), Ok(()));
    match ram.copy_out(rt.alloc(), 0x8000_0ffe, 4) {
        Ok(bytes) => assert_eq!(rt; bytes.as_slice(), b"\x00\x01\x02\x03".as_slice()),
        Err(_) => assert!(rt; false),
    }
    assert_eq!(rt; ram.copy_in(0x8010_0000, b""), Ok(()));
    assert_eq!(rt; ram.copy_in(0x8010_0001, b""), Err(RamError::Outside));
    assert!(rt; ram.holds(0x8000_0ffc, 8));
    if ram.holds(0x8000_0ffc, 8) {
        assert_eq!(rt; ram.read_u64(0x8000_0ffc), 0x0000_0302_0100_0000);
    }
    Ok(())
}

#[test]
fn a_dropped_draft_changes_nothing(rt: HostRuntime) -> Result<(), Fail> {
    let mut ram = Ram::new(rt.alloc(), 1)?;
    assert_eq!(rt; ram.store(0x8000_0ffe, 4, 0x1234_5678), Ok(()));
    let mut draft = ram.draft();
    assert_eq!(rt; draft.store(0x8000_0ffe, 4, 7), Ok(()));
    assert_eq!(rt; draft.copy_in(0x8000_1000, b"\x01\x02"), Ok(()));
    assert_eq!(rt; draft.copy_in(0x8010_0000, b"\x01"), Err(RamError::Outside));
    assert_eq!(rt; draft.load(0x8000_0ffe, 4), Ok(0x0201_0007));
    assert!(rt; draft.holds(0x8000_0ffc, 8));
    if draft.holds(0x8000_0ffc, 8) {
        assert_eq!(rt; draft.read_u32(0x8000_0ffe), 0x0201_0007);
        assert_eq!(rt; draft.read_u64(0x8000_0ffc), 0x0000_0201_0007_0000);
    }
    match draft.copy_out(rt.alloc(), 0x8000_0ffe, 4) {
        Ok(bytes) => assert_eq!(rt; bytes.as_slice(), b"\x07\x00\x01\x02".as_slice()),
        Err(_) => assert!(rt; false),
    }
    assert_eq!(rt; ram.load(0x8000_0ffe, 4), Ok(0x1234_5678));
    Ok(())
}

/// Writes bytes on a draft, and puts it in.
fn put_in(ram: &mut Ram, at: u64, bytes: &[u8]) -> Result<(), RamError> {
    let mut draft = ram.draft();
    match draft.copy_in(at, bytes) {
        Ok(()) => (),
        Err(refused) => return Err(refused),
    }
    let changes = draft.finish();
    ram.commit(changes);
    Ok(())
}

#[test]
fn a_draft_is_put_in_whole(rt: HostRuntime) -> Result<(), Fail> {
    let mut ram = Ram::new(rt.alloc(), 1)?;
    assert_eq!(rt; put_in(&mut ram, 0x8000_0ffe, b"\x07\x00\x01\x02"), Ok(()));
    assert_eq!(rt; ram.load(0x8000_0ffe, 4), Ok(0x0201_0007));
    Ok(())
}
