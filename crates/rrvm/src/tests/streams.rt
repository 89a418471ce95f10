//! Long logs over a world in memory: they go out by 65,536 bytes.

use super::replays::{REPLAY, world_with};
use super::{failing, left_by, shows, world};
use outside::Role;
use std::test::Fail;

/// Every turn of an empty firmware traps, and has two events.
#[test]
fn a_long_log_goes_out_in_pieces(rt: HostRuntime) -> Result<(), Fail> {
    let alloc = rt.alloc();
    let line = "-icount shift=0,rr=record,rrfile=log -bios fw -budget 20000";
    let whole = left_by(&rt, line, world(alloc, &[])?)?;
    assert_eq!(rt; (whole.code, whole.log.len()), (13, 120_106));
    let checked = left_by(
        &rt,
        "check log -bios fw",
        world_with(alloc, &[], &whole.log)?,
    )?;
    let accepted = b"accepted: events 40002, turns 20000, end 2 0\n";
    shows(&rt, &checked, 0, accepted, "");

    let cut = left_by(
        &rt,
        line,
        failing(alloc, world(alloc, &[])?, Role::LogOut, 2)?,
    )?;
    assert_eq!(rt; (cut.code, cut.log.len()), (5, 65_634));
    assert!(rt; cut.log.ends_with(&[0, 0]));
    let again = left_by(&rt, REPLAY, world_with(alloc, &[], &cut.log)?)?;
    let said = "rrvm: log refused: event 21845 at 65632: due RUN, found a cut\n";
    shows(&rt, &again, 20, b"", said);
    Ok(())
}
