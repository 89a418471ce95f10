//! Debugging sessions, checks and lists of events over a world in memory.

use super::demos::quiet_left;
use super::replays::{REPLAY, recorded, world_with};
use super::{LETTER, LETTER_LOG, TIMER, left_by, shows};
use outside::MemWorld;
use std::alloc::{AllocError, AllocGlobal, Global};
use std::process::Abort;
use std::sync::Wait;
use std::test::Fail;
use std::thread::Threads;

const DEBUG: &str = "debug log -bios fw";

const CHECK: &str = "check log -bios fw";

const LETTER_CUT: &str = "rrvm: log refused: event 1 at 103: due END 0 0, found a cut\n";

/// A world with a log of LETTER and these commands on standard input.
fn typed(alloc: Global, log: &[u8], commands: &str) -> Result<MemWorld, AllocError> {
    let mut world = world_with(alloc, &LETTER, log)?;
    world.set_input(commands.as_bytes().to_vec(alloc)?);
    Ok(world)
}

#[test]
fn events_are_listed_up_to_the_first_wrong_one(rt: HostRuntime) -> Result<(), Fail> {
    let alloc = rt.alloc();
    let left = quiet_left(alloc, "events log", typed(alloc, &LETTER_LOG, "")?)?;
    shows(&rt, &left, 0, b"0 98 INSTRUCTION 7\n1 103 END 0 0\n", "");
    let left = quiet_left(alloc, "events log", typed(alloc, &LETTER_LOG[..108], "")?)?;
    let said = "rrvm: log refused: event 1 at 103: due NOTHING, found a cut\n";
    shows(&rt, &left, 20, b"0 98 INSTRUCTION 7\n", said);
    Ok(())
}

#[test]
fn a_check_prints_a_line_or_nothing(rt: HostRuntime) -> Result<(), Fail> {
    let alloc = rt.alloc();
    let left = quiet_left(alloc, CHECK, typed(alloc, &LETTER_LOG, "")?)?;
    shows(&rt, &left, 0, b"accepted: events 2, turns 7, end 0 0\n", "");
    let left = quiet_left(alloc, CHECK, typed(alloc, &LETTER_LOG[..108], "")?)?;
    shows(&rt, &left, 20, b"", LETTER_CUT);
    Ok(())
}

#[test]
fn a_session_goes_back_and_forth(rt: HostRuntime) -> Result<(), Fail> {
    let alloc = rt.alloc();
    let commands = "replay_seek 7\nreverse-step\nquit\nstep\n";
    let left = quiet_left(alloc, DEBUG, typed(alloc, &LETTER_LOG, commands)?)?;
    shows(&rt, &left, 0, b"at 7 pc 8000001c\nat 6 pc 80000018\n", "");
    let cut = typed(alloc, &LETTER_LOG[..108], "continue\nstep")?;
    let left = quiet_left(alloc, DEBUG, cut)?;
    shows(
        &rt,
        &left,
        20,
        b"at 7 pc 8000001c\nat the end\n",
        LETTER_CUT,
    );
    Ok(())
}

/// A log of TIMER that ends after so many bytes is refused alike by a replay, a check and a session.
fn cut_is_refused<R: Threads + Wait + Sync + AllocGlobal + Abort>(
    rt: &R,
    log: &[u8],
    length: usize,
    found: &str,
) -> Result<(), AllocError> {
    let alloc = rt.alloc();
    assert!(rt; length <= log.len());
    let said = format!(in alloc; "rrvm: log refused: {found}\n")?;
    for line in [REPLAY, CHECK, DEBUG] {
        let left = left_by(rt, line, world_with(alloc, &TIMER, &log[..length])?)?;
        shows(rt, &left, 20, b"", said.as_str());
    }
    Ok(())
}

#[test]
fn each_cut_is_refused_alike(rt: HostRuntime) -> Result<(), Fail> {
    let log = recorded(&rt, &TIMER, " -m 1")?;
    cut_is_refused(&rt, &log, 0, "header at 0")?;
    cut_is_refused(&rt, &log, 97, "header at 0")?;
    cut_is_refused(&rt, &log, 98, "event 0 at 98: due RUN, found a cut")?;
    cut_is_refused(&rt, &log, 102, "event 0 at 98: due RUN, found a cut")?;
    let idle = "event 1 at 103: due CHECKPOINT idle, found a cut";
    cut_is_refused(&rt, &log, 103, idle)?;
    cut_is_refused(&rt, &log, 104, idle)?;
    cut_is_refused(&rt, &log, 105, "event 2 at 105: due INTERRUPT, found a cut")?;
    cut_is_refused(&rt, &log, 106, "event 3 at 106: due RUN, found a cut")?;
    cut_is_refused(&rt, &log, 110, "event 3 at 106: due RUN, found a cut")?;
    cut_is_refused(&rt, &log, 111, "event 4 at 111: due END 0 0, found a cut")?;
    cut_is_refused(&rt, &log, 116, "event 4 at 111: due END 0 0, found a cut")?;
    Ok(())
}
