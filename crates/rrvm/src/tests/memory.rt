//! A recording where an allocation may be refused, by a run with `--fail-alloc`.

use super::{ICOUNT, LETTER, LETTER_LOG, left_by, world};
use std::test::Fail;

/// It is the whole recording, or, where memory was refused, a front of it with status 30. An
/// allocation is refused once, so the next recording is whole.
#[test]
fn refused_memory_leaves_a_front_of_a_recording(rt: HostRuntime) -> Result<(), Fail> {
    let Ok(refused) = world(rt.alloc(), &LETTER) else {
        return Ok(());
    };
    let Ok(left) = left_by(&rt, ICOUNT, refused) else {
        return Ok(());
    };
    assert!(rt; LETTER_LOG.starts_with(&left.log));
    assert!(rt; b"A".starts_with(&left.console));
    if left.code != 30 {
        assert_eq!(rt; (left.code, left.log.len()), (0, LETTER_LOG.len()));
        return Ok(());
    }
    let left = left_by(&rt, ICOUNT, world(rt.alloc(), &LETTER)?)?;
    assert_eq!(rt; left.log.as_slice(), LETTER_LOG.as_slice());
    Ok(())
}
