//! Lists over a world in memory.

use super::*;
use commands::Outcome;
use outside::{MemWorld, Role};
use std::alloc::{AllocError, AllocGlobal, Global};
use std::process::Abort;
use std::test::Fail;

/// The header of a log.
const HEADER: [u8; 98] = [
    0x52, 0x52, 0x56, 0x31, 0x00, 0x00, 0x00, 0x00, 0x00, 0x00, 0x00, 0x00, 0x00, 0x10, 0x00, 0x00,
    0x27, 0x10, 0x00, 0x00, 0x00, 0x00, 0x3b, 0x9a, 0xca, 0x00, 0x77, 0xfc, 0xbb, 0x9e, 0x65, 0x46,
    0xce, 0xda, 0x78, 0x07, 0x59, 0x62, 0x2d, 0x73, 0xe2, 0x59, 0x69, 0x7d, 0xa5, 0x3b, 0x6a, 0xb4,
    0x65, 0xea, 0x33, 0x9d, 0x64, 0xcd, 0xdc, 0xfe, 0xec, 0x4e, 0x00, 0x00, 0x00, 0x00, 0x00, 0x00,
    0x00, 0x00, 0xe3, 0xb0, 0xc4, 0x42, 0x98, 0xfc, 0x1c, 0x14, 0x9a, 0xfb, 0xf4, 0xc8, 0x99, 0x6f,
    0xb9, 0x24, 0x27, 0xae, 0x41, 0xe4, 0x64, 0x9b, 0x93, 0x4c, 0xa4, 0x95, 0x99, 0x1b, 0x78, 0x52,
    0xb8, 0x55,
];

/// The events of a guest that waits for its timer.
const TIMER: [u8; 19] = [0, 0, 0, 0, 11, 5, 1, 1, 0, 0, 0, 0, 4, 6, 0, 0, 0, 0, 0];

/// Their list.
const LINES: &str = "0 98 INSTRUCTION 11\n1 103 CHECKPOINT idle\n2 105 INTERRUPT\n\
    3 106 INSTRUCTION 4\n4 111 END 0 0\n";

/// How a list of a log ended, what it printed, and how many consoles were opened.
#[derive(Drop)]
struct Told {
    end: String,
    lines: Vec<u8>,
    consoles: u64,
}

/// A world whose file log this is, and where a call of a role's devices may fail.
fn world(
    alloc: Global,
    log: Vec<u8>,
    failing: Option<(Role, u64)>,
) -> Result<MemWorld, AllocError> {
    let mut world = MemWorld::new(alloc);
    world.add_file("log", log)?;
    if let Some((role, call)) = failing {
        world.set_failing(role, vec![in alloc; call]?);
    }
    Ok(world)
}

/// How a list over a world ends.
fn end_of(alloc: Global, world: &mut MemWorld) -> Result<String, AllocError> {
    let outcome: Outcome = list(alloc, "log", world);
    format!(in alloc; "{outcome:?}")
}

/// What a world tells after a list that ended so.
fn answer(alloc: Global, end: String, world: &MemWorld) -> Result<Told, AllocError> {
    Ok(Told {
        end,
        lines: world.written(Role::ConsoleOut).to_vec(alloc)?,
        consoles: world.opened(Role::ConsoleOut),
    })
}

// None of these promises anything, so that a test is proved without the clauses of a list.
fn list_told(
    alloc: Global,
    log: Vec<u8>,
    failing: Option<(Role, u64)>,
) -> Result<Told, AllocError> {
    let mut world = world(alloc, log, failing)?;
    let end = end_of(alloc, &mut world)?;
    answer(alloc, end, &world)
}

/// A log with a header and these events.
fn log(alloc: Global, events: &[u8]) -> Result<Vec<u8>, AllocError> {
    let mut log = HEADER.to_vec(alloc)?;
    log.extend_from_slice(events)?;
    Ok(log)
}

/// A list of these events ends so, and printed these lines.
fn lists<R: AllocGlobal + Abort>(
    rt: &R,
    events: &[u8],
    failing: Option<(Role, u64)>,
    end: &str,
    lines: &str,
) -> Result<(), AllocError> {
    let alloc = rt.alloc();
    let told = list_told(alloc, log(alloc, events)?, failing)?;
    assert_eq!(rt; told.end.as_str(), end);
    assert_eq!(rt; told.lines.as_slice(), lines.as_bytes());
    Ok(())
}

#[test]
fn each_event_of_the_log_has_its_line(rt: HostRuntime) -> Result<(), Fail> {
    lists(&rt, &TIMER, None, "Printed", LINES)?;
    let refusal =
        "LogRefused(Refusal { index: 1, offset: 99, due: Nothing, found: Rule(UnknownId) })";
    lists(&rt, b"\x01\x07", None, refusal, "0 98 INTERRUPT\n")?;
    Ok(())
}

#[test]
fn without_a_header_no_console_is_opened(rt: HostRuntime) -> Result<(), Fail> {
    let alloc = rt.alloc();
    let short = list_told(alloc, HEADER[..97].to_vec(alloc)?, None)?;
    assert_eq!(rt; short.end.as_str(), "HeaderRefused(0)");
    assert_eq!(rt; short.consoles, 0);
    // No run has this shift.
    let mut header = HEADER;
    header[12] = 11;
    let bad = list_told(alloc, header.to_vec(alloc)?, None)?;
    assert_eq!(rt; bad.end.as_str(), "HeaderRefused(12)");
    assert_eq!(rt; bad.consoles, 0);
    Ok(())
}

#[test]
fn a_fault_ends_the_list(rt: HostRuntime) -> Result<(), Fail> {
    let first = "0 98 INSTRUCTION 11\n";
    lists(
        &rt,
        &TIMER,
        Some((Role::ConsoleOut, 1)),
        "QuietFailed",
        first,
    )?;
    lists(&rt, &TIMER, Some((Role::LogIn, 0)), "LogUnreadable", "")?;
    Ok(())
}

/// By a run with `--fail-alloc`: it is the whole list, or a front of it.
#[test]
fn refused_memory_leaves_a_front_of_the_list(rt: HostRuntime) -> Result<(), Fail> {
    let Ok(timer) = log(rt.alloc(), &TIMER) else {
        return Ok(());
    };
    let Ok(told) = list_told(rt.alloc(), timer, None) else {
        return Ok(());
    };
    assert!(rt; LINES.as_bytes().starts_with(&told.lines));
    if told.end.as_str() != "NoMemory" {
        assert_eq!(rt; told.end.as_str(), "Printed");
        assert_eq!(rt; told.lines.as_slice(), LINES.as_bytes());
    }
    Ok(())
}
