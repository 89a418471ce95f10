//! Sessions on the recorded run of a small guest, over a world in memory.

ghost use Rattle.std.specs.Prelude.{◌≡◌, ◌<◌};

use crate::debug;
use board::Steps;
use commands::Outcome;
use outside::{MemWorld, Role};
use std::alloc::{AllocError, Global};
use std::marker::Brand;
use std::sync::ledger::{Blank, Ledger};
use std::test::Fail;

/// Prints one letter, and ends the run.
const LETTER: [u32; 7] = [
    0x100002b7, 0x04100313, 0x00628023, 0x001003b7, 0x00005337, 0x55530313, 0x0063a023,
];

/// Its log.
const LETTER_LOG: [u8; 109] = [
    0x52, 0x52, 0x56, 0x31, 0x00, 0x00, 0x00, 0x00, 0x00, 0x00, 0x00, 0x00, 0x00, 0x10, 0x00, 0x00,
    0x27, 0x10, 0x00, 0x00, 0x00, 0x00, 0x3b, 0x9a, 0xca, 0x00, 0x77, 0xfc, 0xbb, 0x9e, 0x65, 0x46,
    0xce, 0xda, 0x78, 0x07, 0x59, 0x62, 0x2d, 0x73, 0xe2, 0x59, 0x69, 0x7d, 0xa5, 0x3b, 0x6a, 0xb4,
    0x65, 0xea, 0x33, 0x9d, 0x64, 0xcd, 0xdc, 0xfe, 0xec, 0x4e, 0x00, 0x00, 0x00, 0x00, 0x00, 0x00,
    0x00, 0x00, 0xe3, 0xb0, 0xc4, 0x42, 0x98, 0xfc, 0x1c, 0x14, 0x9a, 0xfb, 0xf4, 0xc8, 0x99, 0x6f,
    0xb9, 0x24, 0x27, 0xae, 0x41, 0xe4, 0x64, 0x9b, 0x93, 0x4c, 0xa4, 0x95, 0x99, 0x1b, 0x78, 0x52,
    0xb8, 0x55, 0x00, 0x00, 0x00, 0x00, 0x07, 0x06, 0x00, 0x00, 0x00, 0x00, 0x00,
];

const COMMANDS: &str = "info replay\nreplay_seek 7\nreverse-step\nquit\n";

const ANSWERS: &[u8] = b"at 0 of 7, breaks none\nat 7 pc 8000001c\nat 6 pc 80000018\n";

/// A world whose file fw has the guest, whose file log these bytes, and whose input the commands, of
/// whose reads these fail.
fn world(
    alloc: Global,
    log: &[u8],
    commands: &str,
    failing: &[u64],
) -> Result<MemWorld, AllocError> {
    let mut file = Vec::new(alloc);
    for word in LETTER {
        file.extend_from_slice(&word.to_le_bytes())?;
    }
    let mut world = MemWorld::new(alloc);
    world.add_file("fw", file)?;
    world.add_file("log", log.to_vec(alloc)?)?;
    world.set_input(commands.as_bytes().to_vec(alloc)?);
    world.set_failing(Role::ConsoleIn, failing.to_vec(alloc)?);
    Ok(world)
}

/// How a session ended, what it answered, and how many streams it opened.
#[derive(Drop)]
struct Told {
    end: String,
    answers: Vec<u8>,
    streams: [u64; 2],
}

/// How a session over a world ends.
fn end_of<L: Ledger>(
    alloc: Global,
    world: &mut MemWorld,
    blank: Blank,
) -> Result<String, AllocError>
    requires name { blank.name ≡ L.name }
    requires parts { blank.parts ≡ L.parts }
    requires some { 0 < L.parts }
{
    let mut steps: Steps<L> = Steps::open(blank);
    let end: Outcome = debug(alloc, "log", "fw", world, &mut steps);
    format!(in alloc; "{end:?}")
}

/// What a world tells after a session that ended so.
fn answers(alloc: Global, end: String, world: &MemWorld) -> Result<Told, AllocError> {
    Ok(Told {
        end,
        answers: world.written(Role::ConsoleOut).to_vec(alloc)?,
        streams: [
            world.opened(Role::ConsoleIn),
            world.opened(Role::ConsoleOut),
        ],
    })
}

// None of these promises anything, so that a test is proved without the clauses of a session.
fn session(alloc: Global, log: &[u8], commands: &str, failing: &[u64]) -> Result<Told, AllocError> {
    let mut world = world(alloc, log, commands, failing)?;
    let end = end_of::<Brand>(alloc, &mut world, Blank::new(1))?;
    answers(alloc, end, &world)
}

#[test]
fn a_recorded_run_is_walked_back(rt: HostRuntime) -> Result<(), Fail> {
    let told = session(rt.alloc(), &LETTER_LOG, COMMANDS, &[])?;
    assert_eq!(rt; told.end.as_str(), "Printed");
    assert_eq!(rt; told.answers.as_slice(), ANSWERS);
    assert_eq!(rt; told.streams, [1, 1]);
    Ok(())
}

#[test]
fn a_cut_log_is_walked_before_its_refusal(rt: HostRuntime) -> Result<(), Fail> {
    let cut = &LETTER_LOG[..108];
    let told = session(rt.alloc(), cut, COMMANDS, &[])?;
    assert!(rt;
        told.end
            .starts_with("LogRefused(Refusal { index: 1, offset: 103, ")
    );
    assert_eq!(rt; told.answers.as_slice(), ANSWERS);
    Ok(())
}

#[test]
fn a_refused_header_opens_no_stream(rt: HostRuntime) -> Result<(), Fail> {
    let cut = &LETTER_LOG[..97];
    let told = session(rt.alloc(), cut, COMMANDS, &[])?;
    assert_eq!(rt; told.end.as_str(), "HeaderRefused(0)");
    assert_eq!(rt; told.streams, [0, 0]);
    Ok(())
}

/// The line that isn't whole then isn't answered.
#[test]
fn a_fault_of_the_commands_ends_the_session(rt: HostRuntime) -> Result<(), Fail> {
    let lines = "replay_seek 7\nreverse-step";
    let told = session(rt.alloc(), &LETTER_LOG, lines, &[1])?;
    assert_eq!(rt; told.end.as_str(), "CommandsUnreadable");
    assert_eq!(rt; told.answers.as_slice(), b"at 7 pc 8000001c\n".as_slice());
    Ok(())
}

/// By a run with `--fail-alloc`, which refuses one allocation.
#[test]
fn refused_memory_leaves_a_front_of_the_answers(rt: HostRuntime) -> Result<(), Fail> {
    let alloc = rt.alloc();
    let Ok(told) = session(alloc, &LETTER_LOG, COMMANDS, &[]) else {
        return Ok(());
    };
    assert!(rt; ANSWERS.starts_with(&told.answers));
    if told.end.as_str() != "NoMemory" {
        assert_eq!(rt; told.end.as_str(), "Printed");
        assert_eq!(rt; told.answers.as_slice(), ANSWERS);
    }
    Ok(())
}
