//! Demonstrations over a world in memory, by both top calls.

use super::{Left, failing, left_by, left_of, shows, words};
use crate::top::rrvm_quiet;
use outside::{MemWorld, Role};
use std::alloc::{AllocError, Global};
use std::test::Fail;

/// What the words of a quiet command leave of a world.
pub(crate) fn quiet_left(
    alloc: Global,
    line: &str,
    mut world: MemWorld,
) -> Result<Left, AllocError> {
    let words = words(alloc, line)?;
    let code = rrvm_quiet(alloc, &words, &mut world).code;
    left_of(alloc, code, &world)
}

#[test]
fn a_demonstration_shows_its_counts(rt: HostRuntime) -> Result<(), Fail> {
    let left = left_by(&rt, "demo 1", MemWorld::new(rt.alloc()))?;
    let shown = b"demo 1: turns 5013, console 1, log 109, replay equal\n";
    shows(&rt, &left, 0, shown, "");
    Ok(())
}

/// Ten million turns, twice: for the built program.
#[test]
fn the_longest_demonstration_shows_its_counts(rt: HostRuntime) -> Result<(), Fail> {
    let left = left_by(&rt, "demo 2000", MemWorld::new(rt.alloc()))?;
    let shown = b"demo 2000: turns 10012007, console 2000, log 7116, replay equal\n";
    shows(&rt, &left, 0, shown, "");
    Ok(())
}

#[test]
fn a_quiet_command_has_its_statuses(rt: HostRuntime) -> Result<(), Fail> {
    let alloc = rt.alloc();
    let left = quiet_left(alloc, "demo 3", MemWorld::new(alloc))?;
    assert_eq!(rt; (left.code, left.messages.len()), (0, 0));
    let world = failing(alloc, MemWorld::new(alloc), Role::ConsoleOut, 0)?;
    let left = quiet_left(alloc, "demo 3", world)?;
    shows(&rt, &left, 9, b"", "rrvm: input or output failed\n");
    let left = quiet_left(alloc, "demo 2001", MemWorld::new(alloc))?;
    shows(&rt, &left, 1, b"", "rrvm: bad word 1: 2001\n");
    let left = quiet_left(alloc, "--version", MemWorld::new(alloc))?;
    shows(&rt, &left, 1, b"", "rrvm: bad word 0: --version\n");
    Ok(())
}
