//! Checks over a world in memory.

ghost use Rattle.std.specs.Prelude.{◌≡◌, ◌<◌};

use super::*;
use board::Steps;
use commands::Outcome;
use outside::{MemWorld, Role};
use std::alloc::{AllocError, Global};
use std::marker::Brand;
use std::sync::ledger::{Blank, Ledger};
use std::test::Fail;

/// A guest that waits for its timer, whose interrupt then ends the run.
const GUEST: [u32; 16] = [
    0x00000297, 0x03028293, 0x30529073, 0x02004337, 0x3e800393, 0x00732023, 0x00032223, 0x08000413,
    0x30441073, 0x30046073, 0x10500073, 0x0000006f, 0x001003b7, 0x00005337, 0x55530313, 0x0063a023,
];

/// The header of its log, with the digest of its bytes as `sha256sum` prints it.
const HEADER: [u8; 98] = [
    0x52, 0x52, 0x56, 0x31, 0x00, 0x00, 0x00, 0x00, 0x00, 0x00, 0x00, 0x00, 0x00, 0x01, 0x00, 0x00,
    0x27, 0x10, 0x00, 0x00, 0x00, 0x00, 0x00, 0x00, 0x03, 0xe8, 0x88, 0x54, 0xdf, 0xaa, 0xc8, 0x43,
    0x28, 0x00, 0x29, 0x06, 0xe6, 0x51, 0xcf, 0xc9, 0x61, 0x35, 0x6c, 0xae, 0x45, 0x37, 0x04, 0xec,
    0x1d, 0xf0, 0x87, 0x92, 0xa3, 0x95, 0x9f, 0xce, 0x57, 0xdd, 0x00, 0x00, 0x00, 0x00, 0x00, 0x00,
    0x00, 0x00, 0xe3, 0xb0, 0xc4, 0x42, 0x98, 0xfc, 0x1c, 0x14, 0x9a, 0xfb, 0xf4, 0xc8, 0x99, 0x6f,
    0xb9, 0x24, 0x27, 0xae, 0x41, 0xe4, 0x64, 0x9b, 0x93, 0x4c, 0xa4, 0x95, 0x99, 0x1b, 0x78, 0x52,
    0xb8, 0x55,
];

/// Its events: eleven turns, the wait, the interrupt, and the four turns that end the run.
const EVENTS: [u8; 19] = [0, 0, 0, 0, 11, 5, 1, 1, 0, 0, 0, 0, 4, 6, 0, 0, 0, 0, 0];

/// The line for its log.
const LINE: &str = "accepted: events 5, turns 15, end 0 0\n";

/// A world whose file fw is the guest, and whose file log has the header and these events.
fn world(alloc: Global, events: &[u8]) -> Result<MemWorld, AllocError> {
    let mut file = Vec::new(alloc);
    for word in GUEST {
        file.extend_from_slice(&word.to_le_bytes())?;
    }
    let mut log = HEADER.to_vec(alloc)?;
    log.extend_from_slice(events)?;
    let mut world = MemWorld::new(alloc);
    world.add_file("fw", file)?;
    world.add_file("log", log)?;
    Ok(world)
}

/// How a check of the log ended. It promises nothing, so that a test is proved without the clauses.
fn told_of<L: Ledger>(
    alloc: Global,
    world: &mut MemWorld,
    blank: Blank,
) -> Result<String, AllocError>
    requires name { blank.name ≡ L.name }
    requires parts { blank.parts ≡ L.parts }
    requires some { 0 < L.parts }
{
    let mut steps: Steps<L> = Steps::open(blank);
    let outcome: Outcome = check(alloc, "log", "fw", world, &mut steps);
    format!(in alloc; "{outcome:?}")
}

fn told(alloc: Global, world: &mut MemWorld) -> Result<String, AllocError> {
    told_of::<Brand>(alloc, world, Blank::new(1))
}

#[test]
fn an_accepted_log_has_its_line(rt: HostRuntime) -> Result<(), Fail> {
    let alloc = rt.alloc();
    let mut world = world(alloc, &EVENTS)?;
    assert_eq!(rt; told(alloc, &mut world)?.as_str(), "Printed");
    assert_eq!(rt; world.written(Role::ConsoleOut), LINE.as_bytes());
    Ok(())
}

#[test]
fn a_refused_log_opens_no_output(rt: HostRuntime) -> Result<(), Fail> {
    let alloc = rt.alloc();
    let mut longer = EVENTS.to_vec(alloc)?;
    longer.push(0)?;
    let mut world = world(alloc, &longer)?;
    let refusal = "LogRefused(Refusal { index: 5, offset: 117, due: Nothing, found: MoreBytes })";
    assert_eq!(rt; told(alloc, &mut world)?.as_str(), refusal);
    assert_eq!(rt; world.opened(Role::ConsoleOut), 0);
    Ok(())
}

#[test]
fn a_line_that_is_not_taken_fails(rt: HostRuntime) -> Result<(), Fail> {
    let alloc = rt.alloc();
    let mut world = world(alloc, &EVENTS)?;
    world.set_failing(Role::ConsoleOut, vec![in alloc; 0]?);
    assert_eq!(rt; told(alloc, &mut world)?.as_str(), "QuietFailed");
    assert_eq!(rt; world.written(Role::ConsoleOut), b"".as_slice());
    Ok(())
}

/// The line is printed, or, where memory was refused, nothing is.
#[test]
fn refused_memory_prints_nothing(rt: HostRuntime) -> Result<(), Fail> {
    let Ok(mut world) = world(rt.alloc(), &EVENTS) else {
        return Ok(());
    };
    let Ok(outcome) = told(rt.alloc(), &mut world) else {
        return Ok(());
    };
    if outcome.as_str() == "NoMemory" {
        assert_eq!(rt; world.opened(Role::ConsoleOut), 0);
    } else {
        assert_eq!(rt; outcome.as_str(), "Printed");
        assert_eq!(rt; world.written(Role::ConsoleOut), LINE.as_bytes());
    }
    Ok(())
}
