//! Chains that break a rule.

use crate::{BadKind, QueueError, Transport};
use ram_pages::Ram;
use std::alloc::{AllocError, Global};
use std::test::Fail;

const TABLE: u32 = 0x8000_1000;

const AVAILABLE: u32 = 0x8000_1400;

// Flags of a descriptor.
const NEXT: u32 = 1;

const WRITE: u32 = 2;

const INDIRECT: u32 = 4;

/// A device with a queue of four descriptors whose driver is ready.
fn ready() -> Transport {
    let mut transport = Transport::new(2, 1, 0);
    transport.write(0x38, 4);
    transport.write(0x80, TABLE);
    transport.write(0x90, AVAILABLE);
    transport.write(0x44, 1);
    transport.write(0x70, 4);
    transport
}

/// Writes the fields of a descriptor: where its range begins, its length, its flags and the next
/// number.
fn describe(ram: &mut Ram, place: u32, fields: [u32; 4]) -> Result<(), Fail> {
    let [at, len, flags, next] = fields;
    ram.store(place, 4, at)?;
    ram.store(place.wrapping_add(8), 4, len)?;
    ram.store(place.wrapping_add(12), 2, flags)?;
    ram.store(place.wrapping_add(14), 2, next)?;
    Ok(())
}

/// The rule that a chain of the descriptors 0 and 1 breaks, if any.
fn broken(alloc: Global, first: [u32; 4], second: [u32; 4]) -> Result<Option<BadKind>, Fail> {
    let mut ram = Ram::new(alloc, 1)?;
    describe(&mut ram, TABLE, first)?;
    describe(&mut ram, TABLE + 16, second)?;
    ram.store(AVAILABLE + 2, 2, 1)?;
    let mut transport = ready();
    if !transport.live(0) {
        return Ok(None);
    }
    match transport.next_chain(alloc, 0, &ram.draft()) {
        Ok(_) => Ok(None),
        Err(QueueError::Bad(kind)) => Ok(Some(kind)),
        Err(QueueError::NoMemory) => Err(AllocError)?,
    }
}

#[test]
fn the_first_rule_that_a_chain_breaks_is_named(rt: HostRuntime) -> Result<(), Fail> {
    let alloc = rt.alloc();
    let at = 0x8000_4000;
    let last = [at, 1, 0, 0];
    let circle = broken(alloc, [at, 1, NEXT, 0], last)?;
    assert_eq!(rt; circle, Some(BadKind::Loop));
    let number = broken(alloc, [at, 1, NEXT, 4], last)?;
    assert_eq!(rt; number, Some(BadKind::Index));
    let table = broken(alloc, [0x8010_0000, 1, INDIRECT, 0], last)?;
    assert_eq!(rt; table, Some(BadKind::Indirect));
    let order = broken(alloc, [at, 1, WRITE | NEXT, 1], last)?;
    assert_eq!(rt; order, Some(BadKind::Order));
    let range = broken(alloc, [0x800f_ffff, 2, NEXT, 4], last)?;
    assert_eq!(rt; range, Some(BadKind::Range));
    let empty = broken(alloc, [0x8010_0000, 0, NEXT, 1], last)?;
    assert_eq!(rt; empty, None);
    Ok(())
}
