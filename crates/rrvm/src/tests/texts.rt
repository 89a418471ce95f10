//! The texts that stand alone, and words that aren't UTF-8, over a world in memory.

use super::{Left, left_by, left_of, shows, words};
use crate::raw_word::rrvm_raw;
use commands::{HELP, VERSION};
use outside::MemWorld;
use std::alloc::{AllocError, Global};
use std::test::Fail;

#[test]
fn help_and_version_are_printed(rt: HostRuntime) -> Result<(), Fail> {
    let left = left_by(&rt, "--help", MemWorld::new(rt.alloc()))?;
    shows(&rt, &left, 0, HELP.as_bytes(), "");
    let left = left_by(&rt, "-h", MemWorld::new(rt.alloc()))?;
    shows(&rt, &left, 0, HELP.as_bytes(), "");
    let left = left_by(&rt, "-version", MemWorld::new(rt.alloc()))?;
    shows(&rt, &left, 0, VERSION.as_bytes(), "");
    Ok(())
}

/// What is left where a word that isn't UTF-8 comes after these words.
fn raw_left(alloc: Global, before: &str) -> Result<Left, AllocError> {
    let words = words(alloc, before)?;
    let mut world = MemWorld::new(alloc);
    let code = rrvm_raw(alloc, &words, b"\xff", &mut world).code;
    left_of(alloc, code, &world)
}

#[test]
fn a_word_that_is_not_utf8_is_told_as_it_is(rt: HostRuntime) -> Result<(), Fail> {
    let left = raw_left(rt.alloc(), "-bios")?;
    assert_eq!(rt; left.code, 1);
    assert_eq!(rt;
        left.messages.as_slice(),
        b"rrvm: bad word 1: \xff\n".as_slice()
    );
    let left = raw_left(rt.alloc(), "-x")?;
    shows(&rt, &left, 1, b"", "rrvm: bad word 0: -x\n");
    Ok(())
}
