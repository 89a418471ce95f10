//! Disks that share their sectors.

use crate::{Overlay, OverlayError};
use std::test::Fail;

#[test]
fn a_share_keeps_its_bytes(rt: HostRuntime) -> Result<(), Fail> {
    let mut disk = Overlay::new(512 * 6);
    assert_eq!(rt; disk.write(rt.alloc(), 1, &[1; 1024]), Ok(()));
    let copy = disk.share()?;
    assert_eq!(rt; disk.write(rt.alloc(), 2, &[2; 1536]), Ok(()));
    let mut here = [9; 3072];
    let mut there = [9; 3072];
    assert_eq!(rt; disk.merge(0, &mut here), Ok(()));
    assert_eq!(rt; copy.merge(0, &mut there), Ok(()));
    for k in 0..6 {
        assert_eq!(rt; here[512 * k], [9, 1, 2, 2, 2, 9][k]);
        assert_eq!(rt; there[512 * k + 511], [9, 1, 1, 9, 9, 9][k]);
    }
    Ok(())
}

#[test]
fn a_refused_write_leaves_all(rt: HostRuntime) -> Result<(), Fail> {
    let mut disk = Overlay::new(2048);
    let wrote = disk.write(rt.alloc(), 1, &[1; 1536]);
    let mut bytes = [9; 2048];
    assert_eq!(rt; disk.merge(0, &mut bytes), Ok(()));
    let found = if wrote.is_ok() { 1 } else { 9 };
    for k in 1..4 {
        assert_eq!(rt; bytes[512 * k], found);
    }
    assert_eq!(rt;
        disk.write(rt.alloc(), 2, &[1; 1536]),
        Err(OverlayError::PastEnd)
    );
    Ok(())
}
