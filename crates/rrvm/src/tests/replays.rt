//! Replays over a world in memory: accepted logs, and wrong ones refused at their first wrong event.

use super::{ICOUNT, LETTER, LETTER_LOG, TIMER, failing, failing_open, left_by, shows, world};
use outside::{MemWorld, Role};
use std::alloc::{AllocError, AllocGlobal, Global};
use std::process::Abort;
use std::sync::Wait;
use std::test::Fail;
use std::thread::Threads;

pub(crate) const REPLAY: &str = "-icount rr=replay,rrfile=log -bios fw";

/// A world whose file fw has the guest's words, and whose file log these bytes.
pub(crate) fn world_with(alloc: Global, guest: &[u32], log: &[u8]) -> Result<MemWorld, AllocError> {
    let mut world = world(alloc, guest)?;
    world.add_file("log", log.to_vec(alloc)?)?;
    Ok(world)
}

/// The header of a log, and these events.
pub(crate) fn log_of<R: AllocGlobal + Abort>(
    rt: &R,
    log: &[u8],
    events: &[u8],
) -> Result<Vec<u8>, AllocError> {
    assert!(rt; log.len() >= 98);
    let mut other = log[..98].to_vec(rt.alloc())?;
    other.extend_from_slice(events)?;
    Ok(other)
}

/// A log with another byte at this place.
fn with_byte<R: AllocGlobal + Abort>(
    rt: &R,
    log: &[u8],
    at: usize,
    byte: u8,
) -> Result<Vec<u8>, AllocError> {
    let mut other = log.to_vec(rt.alloc())?;
    assert!(rt; at < other.len());
    other[at] = byte;
    Ok(other)
}

/// The log that a recording of a guest over this world writes, with further words.
fn recorded_over<R: Threads + Wait + Sync + AllocGlobal>(
    rt: &R,
    more: &str,
    world: MemWorld,
) -> Result<Vec<u8>, AllocError> {
    let mut line = String::from_str(rt.alloc(), ICOUNT)?;
    line.push_str(more)?;
    Ok(left_by(rt, line.as_str(), world)?.log)
}

/// The same, where nothing fails.
pub(crate) fn recorded<R: Threads + Wait + Sync + AllocGlobal>(
    rt: &R,
    guest: &[u32],
    more: &str,
) -> Result<Vec<u8>, AllocError> {
    recorded_over(rt, more, world(rt.alloc(), guest)?)
}

/// A replay by these words has this status, console and message.
fn replays<R: Threads + Wait + Sync + AllocGlobal + Abort>(
    rt: &R,
    line: &str,
    world: MemWorld,
    code: u8,
    console: &[u8],
    said: &str,
) -> Result<(), AllocError> {
    let left = left_by(rt, line, world)?;
    shows(rt, &left, code, console, said);
    Ok(())
}

#[test]
fn an_accepted_log_gives_its_console_again(rt: HostRuntime) -> Result<(), Fail> {
    let alloc = rt.alloc();
    let letter = world_with(alloc, &LETTER, &LETTER_LOG)?;
    replays(&rt, REPLAY, letter, 0, b"A", "")?;
    let letter = world_with(alloc, &LETTER, &LETTER_LOG)?;
    let line = "-bios fw -m 16 -icount shift=0,rrfile=log,rr=replay";
    replays(&rt, line, letter, 0, b"A", "")?;
    let log = recorded(&rt, &TIMER, " -m 1")?;
    replays(&rt, REPLAY, world_with(alloc, &TIMER, &log)?, 0, b"", "")?;
    Ok(())
}

#[test]
fn a_log_ends_as_its_recording_did(rt: HostRuntime) -> Result<(), Fail> {
    let alloc = rt.alloc();
    let log = recorded(&rt, &LETTER, " -m 1 -budget 5")?;
    let budget = "rrvm: budget reached\n";
    replays(
        &rt,
        REPLAY,
        world_with(alloc, &LETTER, &log)?,
        13,
        b"A",
        budget,
    )?;

    let log = recorded(&rt, &LETTER, " -m 1 -slice 3")?;
    replays(&rt, REPLAY, world_with(alloc, &LETTER, &log)?, 0, b"A", "")?;

    let wait = [0x10500073];
    let log = recorded(&rt, &wait, " -m 1")?;
    let idle = "rrvm: idle for ever\n";
    replays(&rt, REPLAY, world_with(alloc, &wait, &log)?, 12, b"", idle)?;

    let console = failing(alloc, world(alloc, &LETTER)?, Role::ConsoleOut, 0)?;
    let log = recorded_over(&rt, " -m 1 -slice 3", console)?;
    let stopped = "rrvm: recording was stopped\n";
    replays(
        &rt,
        REPLAY,
        world_with(alloc, &LETTER, &log)?,
        14,
        b"A",
        stopped,
    )?;
    Ok(())
}

/// A replay of LETTER with these events shows this much, and refuses the log there.
fn refused<R: Threads + Wait + Sync + AllocGlobal + Abort>(
    rt: &R,
    header: &[u8],
    events: &[u8],
    console: &[u8],
    found: &str,
) -> Result<(), AllocError> {
    let alloc = rt.alloc();
    let log = log_of(rt, header, events)?;
    let said = format!(in alloc; "rrvm: log refused: {found}\n")?;
    let world = world_with(alloc, &LETTER, &log)?;
    replays(rt, REPLAY, world, 20, console, said.as_str())
}

#[test]
fn a_wrong_log_is_refused_at_its_first_wrong_event(rt: HostRuntime) -> Result<(), Fail> {
    let header = recorded(&rt, &LETTER, " -m 1")?;
    refused(
        &rt,
        &header,
        b"\0\0\0\0\x06\x06\0\0\0\0\0",
        b"",
        "event 0 at 98: due RUN, found INSTRUCTION 6",
    )?;
    refused(
        &rt,
        &header,
        b"\0\0\0\0\x08\x06\0\0\0\0\0",
        b"",
        "event 0 at 98: due END 0 0, found INSTRUCTION 8",
    )?;
    refused(
        &rt,
        &header,
        b"\0\0\0\0\x07\x06\0\0\0\0\0\0",
        b"A",
        "event 2 at 109: due NOTHING, found more bytes",
    )?;
    refused(
        &rt,
        &header,
        b"\0\0\0\0\x07\x06\0\0\0\0",
        b"A",
        "event 1 at 103: due END 0 0, found a cut",
    )?;
    refused(
        &rt,
        &header,
        b"\0\0\0\0\x07",
        b"A",
        "event 1 at 103: due END 0 0, found a cut",
    )?;
    refused(
        &rt,
        &header,
        b"\0\0\0\0\x07\x06\x01\0\0\0\0",
        b"A",
        "event 1 at 103: due END 0 0, found END 1 0",
    )?;
    refused(
        &rt,
        &header,
        b"\0\0\0\0\x07\x01",
        b"A",
        "event 1 at 103: due END 0 0, found INTERRUPT",
    )?;
    Ok(())
}

#[test]
fn an_event_that_is_not_due_is_refused(rt: HostRuntime) -> Result<(), Fail> {
    let header = recorded(&rt, &LETTER, " -m 1")?;
    refused(
        &rt,
        &header,
        b"\x04\0\0\0\0\0\0\0\0\x05",
        b"",
        "event 0 at 98: due RUN, found CLOCK 5",
    )?;
    refused(
        &rt,
        &header,
        b"\x03\0\0\0\0\0\x01a",
        b"",
        "event 0 at 98: due RUN, found CHAR_READ 1",
    )?;
    refused(
        &rt,
        &header,
        b"\x03\x01\0\0\0\0\0\0\0\x09\x01",
        b"",
        "event 0 at 98: due RUN, found BLOCK 9 error",
    )?;
    refused(
        &rt,
        &header,
        b"\x05\x01",
        b"",
        "event 0 at 98: due RUN, found CHECKPOINT idle",
    )?;
    refused(
        &rt,
        &header,
        b"\x03\0\0\xff",
        b"",
        "event 0 at 98: due RUN, found a cut",
    )?;
    Ok(())
}

#[test]
fn a_field_of_an_event_has_its_range(rt: HostRuntime) -> Result<(), Fail> {
    let header = recorded(&rt, &LETTER, " -m 1")?;
    refused(
        &rt,
        &header,
        b"\x07",
        b"",
        "event 0 at 98: due RUN, found bad id",
    )?;
    refused(
        &rt,
        &header,
        b"\x03\x03",
        b"",
        "event 0 at 98: due RUN, found bad async",
    )?;
    refused(
        &rt,
        &header,
        b"\0\0\0\0\0",
        b"",
        "event 0 at 98: due RUN, found bad count",
    )?;
    refused(
        &rt,
        &header,
        b"\x03\0\x01",
        b"",
        "event 0 at 98: due RUN, found bad device",
    )?;
    refused(
        &rt,
        &header,
        b"\x03\0\0\0\0\x01\x01",
        b"",
        "event 0 at 98: due RUN, found bad length",
    )?;
    refused(
        &rt,
        &header,
        b"\x03\x01\0\0\0\0\0\0\0\0\x02",
        b"",
        "event 0 at 98: due RUN, found bad status",
    )?;
    refused(
        &rt,
        &header,
        b"\x03\x02\x01",
        b"",
        "event 0 at 98: due RUN, found bad adapter",
    )?;
    refused(
        &rt,
        &header,
        b"\x03\x02\0\0\0\0\x01",
        b"",
        "event 0 at 98: due RUN, found bad flags",
    )?;
    refused(
        &rt,
        &header,
        b"\x04\x01",
        b"",
        "event 0 at 98: due RUN, found bad clock",
    )?;
    refused(
        &rt,
        &header,
        b"\x05\x02",
        b"",
        "event 0 at 98: due RUN, found bad kind",
    )?;
    let long = "event 0 at 98: due RUN, found bad length";
    refused(&rt, &header, b"\x03\0\0\0\0\0\0", b"", long)?;
    refused(&rt, &header, b"\x03\x02\0\0\0\0\0\0\0\0\x0d", b"", long)?;
    refused(&rt, &header, b"\x03\x02\0\0\0\0\0\0\0\x05\xeb", b"", long)?;
    refused(
        &rt,
        &header,
        b"\x06\x04",
        b"",
        "event 0 at 98: due RUN, found bad reason",
    )?;
    refused(
        &rt,
        &header,
        b"\x06\x01\0\0\0\x01",
        b"",
        "event 0 at 98: due RUN, found bad code",
    )?;
    refused(
        &rt,
        &header,
        b"\x06\x03\0\0\0\0",
        b"",
        "event 0 at 98: due RUN, found END 3 0",
    )?;
    Ok(())
}

/// A replay of a log with another byte in its header refuses the field at this offset.
fn header_refused<R: Threads + Wait + Sync + AllocGlobal + Abort>(
    rt: &R,
    at: usize,
    byte: u8,
    offset: u64,
) -> Result<(), AllocError> {
    let alloc = rt.alloc();
    let log = with_byte(rt, &LETTER_LOG, at, byte)?;
    let said = format!(in alloc; "rrvm: log refused: header at {offset}\n")?;
    let world = world_with(alloc, &LETTER, &log)?;
    replays(rt, REPLAY, world, 20, b"", said.as_str())
}

/// Each field of the header, the disk's length and digest apart.
#[test]
fn a_field_of_the_header_has_its_range(rt: HostRuntime) -> Result<(), Fail> {
    header_refused(&rt, 0, 0x53, 0)?;
    header_refused(&rt, 11, 1, 4)?;
    header_refused(&rt, 12, 11, 12)?;
    header_refused(&rt, 13, 65, 13)?;
    header_refused(&rt, 14, 1, 14)?;
    header_refused(&rt, 20, 1, 18)?;
    let world = world_with(rt.alloc(), &LETTER, &LETTER_LOG[..97])?;
    replays(
        &rt,
        REPLAY,
        world,
        20,
        b"",
        "rrvm: log refused: header at 0\n",
    )?;
    Ok(())
}

/// A replay by these words of a log with another byte says what differs.
fn differs<R: Threads + Wait + Sync + AllocGlobal + Abort>(
    rt: &R,
    line: &str,
    at: usize,
    byte: u8,
    what: &str,
) -> Result<(), AllocError> {
    let alloc = rt.alloc();
    let log = with_byte(rt, &LETTER_LOG, at, byte)?;
    let said = format!(in alloc; "rrvm: images differ: {what}\n")?;
    let world = world_with(alloc, &LETTER, &log)?;
    replays(rt, line, world, 21, b"", said.as_str())
}

#[test]
fn images_and_words_must_be_the_headers(rt: HostRuntime) -> Result<(), Fail> {
    let alloc = rt.alloc();
    let shifted = "-icount rr=replay,rrfile=log,shift=1 -bios fw";
    differs(&rt, shifted, 12, 0, "shift")?;
    differs(
        &rt,
        "-icount rr=replay,rrfile=log -bios fw -m 17",
        13,
        16,
        "ram",
    )?;
    differs(&rt, REPLAY, 30, 0, "firmware")?;
    differs(&rt, REPLAY, 65, 1, "disk length")?;
    differs(&rt, REPLAY, 97, 0, "disk")?;
    // The guest would print another letter.
    let mut guest = LETTER;
    guest[1] = 0x04200313;
    let world = world_with(alloc, &guest, &LETTER_LOG)?;
    replays(
        &rt,
        REPLAY,
        world,
        21,
        b"",
        "rrvm: images differ: firmware\n",
    )?;
    Ok(())
}

#[test]
fn each_fault_of_a_replay_has_its_status(rt: HostRuntime) -> Result<(), Fail> {
    let alloc = rt.alloc();
    let log = failing_open(alloc, world_with(alloc, &LETTER, &LETTER_LOG)?, 0)?;
    replays(&rt, REPLAY, log, 2, b"", "rrvm: cannot open or read log\n")?;
    let firmware = failing_open(alloc, world_with(alloc, &LETTER, &LETTER_LOG)?, 1)?;
    replays(
        &rt,
        REPLAY,
        firmware,
        2,
        b"",
        "rrvm: cannot open or read fw\n",
    )?;
    let log = failing(
        alloc,
        world_with(alloc, &LETTER, &LETTER_LOG)?,
        Role::LogIn,
        0,
    )?;
    replays(&rt, REPLAY, log, 6, b"", "rrvm: log input failed\n")?;
    let console = failing(
        alloc,
        world_with(alloc, &LETTER, &LETTER_LOG)?,
        Role::ConsoleOut,
        0,
    )?;
    replays(
        &rt,
        REPLAY,
        console,
        4,
        b"",
        "rrvm: console output failed\n",
    )?;
    Ok(())
}
