//! The driver's side of the two queues, for tests.

use crate::Net;
use ram_pages::Ram;
use std::alloc::Global;
use std::test::Fail;

/// The page of the receive queue: its descriptors, then its available ring, then its used ring.
pub(crate) const RECEIVE: u32 = 0x8000_1000;

/// The page of the transmit queue.
pub(crate) const TRANSMIT: u32 = 0x8000_2000;

pub(crate) const AVAILABLE: u32 = 0x400;

pub(crate) const USED: u32 = 0x800;

const WRITE: u32 = 2;

/// Lays a queue out in a page.
fn set_queue(net: &mut Net, q: u32, page: u32, used: u32) {
    net.write(0x30, q);
    net.write(0x38, 64);
    net.write(0x80, page);
    net.write(0x90, page.wrapping_add(AVAILABLE));
    net.write(0xa0, used);
    net.write(0x44, 1);
}

/// Lays both queues out, the used ring of the receive queue at an address, and starts the device.
pub(crate) fn start(net: &mut Net, used: u32) {
    set_queue(net, 0, RECEIVE, used);
    set_queue(net, 1, TRANSMIT, TRANSMIT + USED);
    net.write(0x70, 4);
}

/// A device whose driver is ready.
pub(crate) fn ready(alloc: Global) -> Result<Net, Fail> {
    let mut net = Net::new(alloc)?;
    start(&mut net, RECEIVE + USED);
    Ok(net)
}

/// Shows a receive chain of one range under the next index.
pub(crate) fn show(ram: &mut Ram, index: u32, at: u32, len: u32) -> Result<(), Fail> {
    let number = index % 64;
    let place = RECEIVE + 16 * number;
    ram.store(place, 4, at)?;
    ram.store(place + 8, 4, len)?;
    ram.store(place + 12, 2, WRITE)?;
    ram.store(RECEIVE + AVAILABLE + 4 + 2 * number, 2, number)?;
    ram.store(RECEIVE + AVAILABLE + 2, 2, index.wrapping_add(1))?;
    Ok(())
}

/// Shows a transmit chain of one range under the next index.
pub(crate) fn offer(ram: &mut Ram, index: u32, at: u32, len: u32) -> Result<(), Fail> {
    let number = index % 64;
    let place = TRANSMIT + 16 * number;
    ram.store(place, 4, at)?;
    ram.store(place + 8, 4, len)?;
    ram.store(TRANSMIT + AVAILABLE + 4 + 2 * number, 2, number)?;
    ram.store(TRANSMIT + AVAILABLE + 2, 2, index.wrapping_add(1))?;
    Ok(())
}
