//! Recordings over a world in memory: whole runs by their logs, and each cause in its place.

mod demos;
mod firmwares;
mod inputs;
mod memory;
mod quiet;
mod replays;
mod streams;
mod texts;

use crate::top::rrvm_main;
use outside::{MemWorld, Role};
use std::alloc::{AllocError, AllocGlobal, Global};
use std::process::Abort;
use std::sync::Wait;
use std::test::Fail;
use std::thread::Threads;

/// Prints one letter, and ends the run.
const LETTER: [u32; 7] = [
    0x100002b7, 0x04100313, 0x00628023, 0x001003b7, 0x00005337, 0x55530313, 0x0063a023,
];

/// Stores a letter to RAM twice, and ends the run.
const STORES: [u32; 8] = [
    0x800012b7, 0x04100313, 0x00628023, 0x00628023, 0x001003b7, 0x00005337, 0x55530313, 0x0063a023,
];

/// Waits for the timer, whose interrupt then ends the run.
const TIMER: [u32; 16] = [
    0x00000297, 0x03028293, 0x30529073, 0x02004337, 0x3e800393, 0x00732023, 0x00032223, 0x08000413,
    0x30441073, 0x30046073, 0x10500073, 0x0000006f, 0x001003b7, 0x00005337, 0x55530313, 0x0063a023,
];

/// The same, which goes on for ever in place of ending the run.
const TIMER_LOOP: [u32; 16] = [
    0x00000297, 0x03028293, 0x30529073, 0x02004337, 0x3e800393, 0x00732023, 0x00032223, 0x08000413,
    0x30441073, 0x30046073, 0x10500073, 0x0000006f, 0x001003b7, 0x0000006f, 0x55530313, 0x0063a023,
];

/// The log of LETTER with the defaults.
const LETTER_LOG: [u8; 109] = [
    0x52, 0x52, 0x56, 0x31, 0x00, 0x00, 0x00, 0x00, 0x00, 0x00, 0x00, 0x00, 0x00, 0x10, 0x00, 0x00,
    0x27, 0x10, 0x00, 0x00, 0x00, 0x00, 0x3b, 0x9a, 0xca, 0x00, 0x77, 0xfc, 0xbb, 0x9e, 0x65, 0x46,
    0xce, 0xda, 0x78, 0x07, 0x59, 0x62, 0x2d, 0x73, 0xe2, 0x59, 0x69, 0x7d, 0xa5, 0x3b, 0x6a, 0xb4,
    0x65, 0xea, 0x33, 0x9d, 0x64, 0xcd, 0xdc, 0xfe, 0xec, 0x4e, 0x00, 0x00, 0x00, 0x00, 0x00, 0x00,
    0x00, 0x00, 0xe3, 0xb0, 0xc4, 0x42, 0x98, 0xfc, 0x1c, 0x14, 0x9a, 0xfb, 0xf4, 0xc8, 0x99, 0x6f,
    0xb9, 0x24, 0x27, 0xae, 0x41, 0xe4, 0x64, 0x9b, 0x93, 0x4c, 0xa4, 0x95, 0x99, 0x1b, 0x78, 0x52,
    0xb8, 0x55, 0x00, 0x00, 0x00, 0x00, 0x07, 0x06, 0x00, 0x00, 0x00, 0x00, 0x00,
];

pub(crate) const ICOUNT: &str = "-icount shift=0,rr=record,rrfile=log -bios fw";

// A test is proved line by line with all that it knows, so each keeps to values: worlds are made and
// run in functions that promise nothing, and rows are calls.

/// What a run left: its status, what was taken, and how often standard input and a log were opened.
#[derive(Drop)]
pub(crate) struct Left {
    pub code: u8,
    pub console: Vec<u8>,
    pub log: Vec<u8>,
    pub messages: Vec<u8>,
    pub inputs: u64,
    pub logs: u64,
}

pub(crate) fn words(alloc: Global, line: &str) -> Result<Vec<String>, AllocError> {
    let mut words = Vec::new(alloc);
    for word in line.split(' ') {
        words.push(String::from_str(alloc, word)?)?;
    }
    Ok(words)
}

/// What a world tells after a run of this status.
pub(crate) fn left_of(alloc: Global, code: u8, world: &MemWorld) -> Result<Left, AllocError> {
    Ok(Left {
        code,
        console: world.written(Role::ConsoleOut).to_vec(alloc)?,
        log: world.written(Role::LogOut).to_vec(alloc)?,
        messages: world.written(Role::Messages).to_vec(alloc)?,
        inputs: world.opened(Role::ConsoleIn),
        logs: world.opened(Role::LogOut),
    })
}

/// What these words leave of a world.
pub(crate) fn left_by<R: Threads + Wait + Sync + AllocGlobal>(
    rt: &R,
    line: &str,
    mut world: MemWorld,
) -> Result<Left, AllocError> {
    let words = words(rt.alloc(), line)?;
    let code = rrvm_main(rt, &words, &mut world).code;
    left_of(rt.alloc(), code, &world)
}

/// A world whose file fw has these words.
pub(crate) fn world(alloc: Global, guest: &[u32]) -> Result<MemWorld, AllocError> {
    let mut file = Vec::new(alloc);
    for word in guest {
        file.extend_from_slice(&word.to_le_bytes())?;
    }
    let mut world = MemWorld::new(alloc);
    world.add_file("fw", file)?;
    Ok(world)
}

/// A world where this call of a role's devices fails.
pub(crate) fn failing(
    alloc: Global,
    mut world: MemWorld,
    role: Role,
    call: u64,
) -> Result<MemWorld, AllocError> {
    world.set_failing(role, vec![in alloc; call]?);
    Ok(world)
}

/// A world where this named opening fails.
pub(crate) fn failing_open(
    alloc: Global,
    mut world: MemWorld,
    open: u64,
) -> Result<MemWorld, AllocError> {
    world.set_failing_opens(vec![in alloc; open]?);
    Ok(world)
}

/// The status, standard output, and the messages.
pub(crate) fn shows<R: Abort>(rt: &R, left: &Left, code: u8, console: &[u8], said: &str) {
    assert_eq!(rt; left.messages.as_slice(), said.as_bytes());
    assert_eq!(rt; left.code, code);
    assert_eq!(rt; left.console.as_slice(), console);
}

/// The events of the log.
pub(crate) fn logs<R: Abort>(rt: &R, left: &Left, events: &[u8]) {
    assert!(rt; left.log.len() >= 98);
    assert_eq!(rt; &left.log[98..], events);
}

#[test]
fn a_letter_is_recorded_byte_for_byte(rt: HostRuntime) -> Result<(), Fail> {
    let left = left_by(&rt, ICOUNT, world(rt.alloc(), &LETTER)?)?;
    shows(&rt, &left, 0, b"A", "");
    assert_eq!(rt; left.log.as_slice(), LETTER_LOG.as_slice());
    Ok(())
}

/// The recording of a guest with further words has this status and these events.
fn records<R: Threads + Wait + Sync + AllocGlobal + Abort>(
    rt: &R,
    more: &str,
    guest: &[u32],
    code: u8,
    events: &[u8],
) -> Result<(), AllocError> {
    let alloc = rt.alloc();
    let mut line = String::from_str(alloc, ICOUNT)?;
    line.push_str(more)?;
    let left = left_by(rt, line.as_str(), world(alloc, guest)?)?;
    assert_eq!(rt; left.code, code);
    logs(rt, &left, events);
    Ok(())
}

#[test]
fn a_recording_has_the_marks_of_its_words(rt: HostRuntime) -> Result<(), Fail> {
    let jump = [0x0000006f];
    records(
        &rt,
        " -budget 5",
        &LETTER,
        13,
        b"\0\0\0\0\x05\x06\x02\0\0\0\0",
    )?;
    records(&rt, " -budget 7", &LETTER, 0, b"\0\0\0\0\x07\x06\0\0\0\0\0")?;
    records(
        &rt,
        " -slice 3",
        &LETTER,
        0,
        b"\0\0\0\0\x03\x05\0\0\0\0\0\x03\x05\0\0\0\0\0\x01\x06\0\0\0\0\0",
    )?;
    records(&rt, " -slice 7", &LETTER, 0, b"\0\0\0\0\x07\x06\0\0\0\0\0")?;
    records(
        &rt,
        " -budget 3 -slice 2",
        &jump,
        13,
        b"\0\0\0\0\x02\x05\0\0\0\0\0\x01\x06\x02\0\0\0\0",
    )?;
    records(
        &rt,
        " -budget 20",
        &TIMER_LOOP,
        13,
        b"\0\0\0\0\x0b\x05\x01\x01\0\0\0\0\x09\x06\x02\0\0\0\0",
    )?;
    Ok(())
}

#[test]
fn guests_have_the_events_of_their_runs(rt: HostRuntime) -> Result<(), Fail> {
    let ecall = [0x00000073];
    let wait = [0x10500073];
    records(&rt, "", &STORES, 0, b"\0\0\0\0\x08\x06\0\0\0\0\0")?;
    records(
        &rt,
        " -budget 2",
        &ecall,
        13,
        b"\0\0\0\0\x01\x02\0\0\0\0\x01\x02\x06\x02\0\0\0\0",
    )?;
    records(&rt, "", &wait, 12, b"\0\0\0\0\x01\x05\x01\x06\x01\0\0\0\0")?;
    records(
        &rt,
        "",
        &TIMER,
        0,
        b"\0\0\0\0\x0b\x05\x01\x01\0\0\0\0\x04\x06\0\0\0\0\0",
    )?;
    records(
        &rt,
        " -budget 10",
        &[],
        13,
        b"\0\0\0\0\x01\x02\0\0\0\0\x01\x02\0\0\0\0\x01\x02\0\0\0\0\x01\x02\0\0\0\0\x01\x02\
        \0\0\0\0\x01\x02\0\0\0\0\x01\x02\0\0\0\0\x01\x02\0\0\0\0\x01\x02\0\0\0\0\x01\x02\
        \x06\x02\0\0\0\0",
    )?;
    Ok(())
}

#[test]
fn each_fault_has_its_status_and_message(rt: HostRuntime) -> Result<(), Fail> {
    let alloc = rt.alloc();
    let log = failing(alloc, world(alloc, &LETTER)?, Role::LogOut, 1)?;
    let left = left_by(&rt, ICOUNT, log)?;
    shows(&rt, &left, 5, b"A", "rrvm: log output failed\n");
    assert_eq!(rt; left.log.len(), 98);

    let log = failing(alloc, world(alloc, &LETTER)?, Role::LogOut, 0)?;
    let left = left_by(&rt, ICOUNT, log)?;
    shows(&rt, &left, 5, b"", "rrvm: log output failed\n");
    assert_eq!(rt; left.log.len(), 0);

    let console = failing(alloc, world(alloc, &LETTER)?, Role::ConsoleOut, 0)?;
    let left = left_by(&rt, ICOUNT, console)?;
    shows(&rt, &left, 4, b"", "rrvm: console output failed\n");
    assert_eq!(rt; left.log.len(), 103);

    let firmware = failing_open(alloc, world(alloc, &LETTER)?, 0)?;
    let left = left_by(&rt, ICOUNT, firmware)?;
    shows(&rt, &left, 2, b"", "rrvm: cannot open or read fw\n");

    let log = failing_open(alloc, world(alloc, &LETTER)?, 1)?;
    let left = left_by(&rt, ICOUNT, log)?;
    shows(&rt, &left, 2, b"", "rrvm: cannot open or read log\n");
    Ok(())
}

#[test]
fn bad_words_have_their_message(rt: HostRuntime) -> Result<(), Fail> {
    let alloc = rt.alloc();
    let line = "-icount shift=11,rr=record,rrfile=a -bios b";
    let left = left_by(&rt, line, world(alloc, &LETTER)?)?;
    let said = "rrvm: bad word 1: shift=11,rr=record,rrfile=a\n";
    shows(&rt, &left, 1, b"", said);
    let left = left_by(&rt, "-bios b", world(alloc, &LETTER)?)?;
    shows(&rt, &left, 1, b"", "rrvm: words end early\n");
    Ok(())
}
