//! The driver's side of a queue, for tests.

use crate::{Block, CompleteError};
use overlay_disk::Overlay;
use ram_pages::Ram;
use std::alloc::Global;
use std::test::Fail;

pub(crate) const TABLE: u32 = 0x8000_1000;

pub(crate) const AVAILABLE: u32 = 0x8000_1400;

pub(crate) const USED: u32 = 0x8000_1800;

pub(crate) const HEADER: u32 = 0x8000_4000;

pub(crate) const STATUS: u32 = 0x8000_4100;

// Flags of a descriptor.
pub(crate) const NEXT: u32 = 1;

pub(crate) const WRITE: u32 = 2;

/// Where a driver lays out a queue, and how many descriptors it has.
#[derive(Clone, Copy)]
pub(crate) struct Layout {
    pub size: u32,
    pub table: u32,
    pub available: u32,
    pub used: u32,
}

/// Lays the queue out and starts the device.
pub(crate) fn start(block: &mut Block, layout: &Layout) {
    block.write(0x38, layout.size);
    block.write(0x80, layout.table);
    block.write(0x90, layout.available);
    block.write(0xa0, layout.used);
    block.write(0x44, 1);
    block.write(0x70, 4);
}

/// A device of a disk of two sectors whose driver is ready.
pub(crate) fn ready(alloc: Global) -> Block {
    let mut block = Block::new(alloc, Overlay::new(1024));
    let layout = Layout {
        size: 64,
        table: TABLE,
        available: AVAILABLE,
        used: USED,
    };
    start(&mut block, &layout);
    block
}

/// Writes a descriptor: its number, and then its fields.
pub(crate) fn describe(ram: &mut Ram, number: u32, fields: [u32; 4]) -> Result<(), Fail> {
    describe_at(ram, TABLE + 16 * (number % 64), fields)
}

/// Writes the fields of a descriptor at an address: where its range begins, its length, its flags
/// and the next number.
pub(crate) fn describe_at(ram: &mut Ram, place: u32, fields: [u32; 4]) -> Result<(), Fail> {
    let [at, len, flags, next] = fields;
    ram.store(place, 4, at)?;
    ram.store(place.wrapping_add(8), 4, len)?;
    ram.store(place.wrapping_add(12), 2, flags)?;
    ram.store(place.wrapping_add(14), 2, next)?;
    Ok(())
}

/// Puts a head at a place of the available ring, and shows it.
pub(crate) fn show(ram: &mut Ram, place: u32, head: u32) -> Result<(), Fail> {
    let place = place % 64;
    ram.store(AVAILABLE + 4 + 2 * place, 2, head)?;
    ram.store(AVAILABLE + 2, 2, place + 1)?;
    Ok(())
}

/// Shows a read of sector 0 as the heads 0 and 3, whose bytes go to two places, at the places 0 and
/// 1 of the ring.
pub(crate) fn show_reads(ram: &mut Ram) -> Result<(), Fail> {
    describe(ram, 0, [HEADER, 16, NEXT, 1])?;
    describe(ram, 1, [0x8000_6000, 513, WRITE, 0])?;
    describe(ram, 3, [HEADER, 16, NEXT, 4])?;
    describe(ram, 4, [0x8000_7000, 513, WRITE, 0])?;
    show(ram, 0, 0)?;
    show(ram, 1, 3)
}

/// Shows a write of 512 bytes 0x79 to sector 0 as head 0, and a read of it as head 3.
pub(crate) fn show_write_and_read(ram: &mut Ram) -> Result<(), Fail> {
    ram.store(HEADER, 4, 1)?;
    describe(ram, 0, [HEADER, 16, NEXT, 1])?;
    describe(ram, 1, [0x8000_5000, 512, NEXT, 2])?;
    describe(ram, 2, [STATUS, 1, WRITE, 0])?;
    describe(ram, 3, [HEADER + 0x40, 16, NEXT, 4])?;
    describe(ram, 4, [0x8000_6000, 513, WRITE, 0])?;
    ram.copy_in(0x8000_5000, &[0x79; 512])?;
    show(ram, 0, 0)?;
    show(ram, 1, 3)
}

/// Ends a request, where the base has as many bytes as it reads.
pub(crate) fn finish(
    alloc: Global,
    block: &mut Block,
    id: u64,
    base: &[u8],
    ram: &mut Ram,
) -> Result<(), CompleteError> {
    match block.request(id) {
        Some(request) => {
            if request.len as usize != base.len() {
                return Err(CompleteError::NoMemory);
            }
            block.complete(alloc, id, true, base, ram)
        }
        None => block.complete(alloc, id, true, base, ram),
    }
}

/// Tells that the image of a request can't be read.
pub(crate) fn fail(
    alloc: Global,
    block: &mut Block,
    id: u64,
    ram: &mut Ram,
) -> Result<(), CompleteError> {
    match block.request(id) {
        Some(_) => block.complete(alloc, id, false, &[], ram),
        None => block.complete(alloc, id, false, &[], ram),
    }
}
