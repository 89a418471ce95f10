//! Firmware in an ELF file, over a world in memory.

use super::{ICOUNT, LETTER, left_by, logs, shows};
use outside::MemWorld;
use std::alloc::{AllocError, Global};
use std::test::Fail;

/// An ELF executable for 32-bit RISC-V with one segment of 28 bytes at 0x80000000, where it is
/// entered: its two headers.
const HEADERS: [u8; 84] = [
    0x7f, 0x45, 0x4c, 0x46, 1, 1, 1, 0, 0, 0, 0, 0, 0, 0, 0, 0, 2, 0, 243, 0, 1, 0, 0, 0, 0, 0, 0,
    0x80, 52, 0, 0, 0, 0, 0, 0, 0, 0, 0, 0, 0, 52, 0, 32, 0, 1, 0, 0, 0, 0, 0, 0, 0, 1, 0, 0, 0,
    84, 0, 0, 0, 0, 0, 0, 0x80, 0, 0, 0, 0x80, 28, 0, 0, 0, 28, 0, 0, 0, 5, 0, 0, 0, 4, 0, 0, 0,
];

/// A world whose file fw is the letter's guest in an ELF file for this machine.
fn world(alloc: Global, machine: u8) -> Result<MemWorld, AllocError> {
    let mut file = HEADERS.to_vec(alloc)?;
    file[18] = machine;
    for word in LETTER {
        file.extend_from_slice(&word.to_le_bytes())?;
    }
    let mut world = MemWorld::new(alloc);
    world.add_file("fw", file)?;
    Ok(world)
}

#[test]
fn an_elf_file_runs_as_its_segment(rt: HostRuntime) -> Result<(), Fail> {
    let left = left_by(&rt, ICOUNT, world(rt.alloc(), 243)?)?;
    shows(&rt, &left, 0, b"A", "");
    logs(&rt, &left, b"\0\0\0\0\x07\x06\0\0\0\0\0");
    Ok(())
}

#[test]
fn a_file_for_another_machine_is_bad_firmware(rt: HostRuntime) -> Result<(), Fail> {
    let left = left_by(&rt, ICOUNT, world(rt.alloc(), 62)?)?;
    shows(&rt, &left, 8, b"", "rrvm: bad firmware: machine\n");
    assert_eq!(rt; left.logs, 0);
    Ok(())
}
