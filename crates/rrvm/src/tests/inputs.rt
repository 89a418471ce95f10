//! Recordings of guests that read the console or the host's clock, over a world in memory.

use super::replays::{REPLAY, log_of, world_with};
use super::{Left, failing, left_by, logs, shows, world};
use outside::{MemWorld, Role};
use std::alloc::{AllocError, AllocGlobal, Global};
use std::process::Abort;
use std::sync::Wait;
use std::test::Fail;
use std::thread::Threads;

/// Reads three bytes from the console and writes each again, then ends the run.
pub(crate) const ECHO: [u32; 13] = [
    0x100002b7, 0x00300413, 0x0052c303, 0x00137313, 0xfe030ce3, 0x0002c303, 0x00628023, 0xfff40413,
    0xfe0414e3, 0x001003b7, 0x00005337, 0x55530313, 0x0063a023,
];

/// Takes a timer interrupt, reads the host's clock, and ends the run.
const CLOCK: [u32; 18] = [
    0x00000297, 0x04028293, 0x30529073, 0x02004337, 0x001014b7, 0x06400393, 0x00732023, 0x00032223,
    0x08000413, 0x30441073, 0x30046073, 0x0004a503, 0x001003b7, 0x00005337, 0x55530313, 0x0063a023,
    0x30401073, 0x30200073,
];

/// The events of ECHO, where its three bytes come at once, where one comes before the others, and
/// where the console's input fails.
const AT_ONCE: &[u8] = b"\0\0\0\0\x64\x05\0\x03\0\0\0\0\0\x03abc\0\0\0\0\x1a\x06\0\0\0\0\0";

pub(crate) const IN_TWO: &[u8] =
    b"\0\0\0\0\x64\x05\0\x03\0\0\0\0\0\x01a\0\0\0\0\x64\x05\0\x03\0\0\0\0\0\x02bc\
    \0\0\0\0\x13\x06\0\0\0\0\0";

const UNREAD: &[u8] = b"\0\0\0\0\x64\x05\0\x06\x03\0\0\0\0";

/// A world whose console holds `abc`.
fn typed(alloc: Global) -> Result<MemWorld, AllocError> {
    let mut world = world(alloc, &ECHO)?;
    world.set_input(b"abc".to_vec(alloc)?);
    Ok(world)
}

/// Records ECHO over it.
fn echo<R: Threads + Wait + Sync + AllocGlobal>(
    rt: &R,
    world: MemWorld,
) -> Result<Left, AllocError> {
    let line = "-icount shift=0,rr=record,rrfile=log -bios fw -slice 100";
    left_by(rt, line, world)
}

#[test]
fn a_window_has_the_input_that_was_read_in_it(rt: HostRuntime) -> Result<(), Fail> {
    let left = echo(&rt, typed(rt.alloc())?)?;
    shows(&rt, &left, 0, b"abc", "");
    logs(&rt, &left, AT_ONCE);
    Ok(())
}

#[test]
fn input_that_fails_stops_its_recording(rt: HostRuntime) -> Result<(), Fail> {
    let alloc = rt.alloc();
    let left = echo(&rt, failing(alloc, typed(alloc)?, Role::ConsoleIn, 0)?)?;
    shows(&rt, &left, 3, b"", "rrvm: console input failed\n");
    logs(&rt, &left, UNREAD);
    Ok(())
}

/// A replay of ECHO with these events has this status, console and message, and opens no input.
fn replays<R: Threads + Wait + Sync + AllocGlobal + Abort>(
    rt: &R,
    header: &[u8],
    events: &[u8],
    code: u8,
    console: &[u8],
    said: &str,
) -> Result<(), AllocError> {
    let alloc = rt.alloc();
    let log = log_of(rt, header, events)?;
    let left = left_by(rt, REPLAY, world_with(alloc, &ECHO, &log)?)?;
    shows(rt, &left, code, console, said);
    assert_eq!(rt; left.inputs, 0);
    Ok(())
}

#[test]
fn a_replay_takes_its_input_from_the_log(rt: HostRuntime) -> Result<(), Fail> {
    let recorded = echo(&rt, typed(rt.alloc())?)?;
    replays(&rt, &recorded.log, AT_ONCE, 0, b"abc", "")?;
    replays(&rt, &recorded.log, IN_TWO, 0, b"abc", "")?;
    let stopped = "rrvm: recording was stopped\n";
    replays(&rt, &recorded.log, UNREAD, 14, b"", stopped)?;
    Ok(())
}

/// A world whose clock gives this value first.
fn clocked(alloc: Global, value: u64) -> Result<MemWorld, AllocError> {
    let mut world = world(alloc, &CLOCK)?;
    world.set_clock(vec![in alloc; value]?);
    Ok(world)
}

#[test]
fn a_log_has_what_the_hosts_clock_gave(rt: HostRuntime) -> Result<(), Fail> {
    let line = "-icount shift=10,rr=record,rrfile=log -bios fw -slice 11";
    let left = left_by(&rt, line, clocked(rt.alloc(), 0x0123456789abcdef)?)?;
    assert_eq!(rt; left.code, 0);
    logs(
        &rt,
        &left,
        b"\0\0\0\0\x0b\x05\0\x01\0\0\0\0\x02\x04\0\x01\x23\x45\x67\x89\xab\xcd\xef\
        \0\0\0\0\x05\x06\0\0\0\0\0",
    );
    Ok(())
}
