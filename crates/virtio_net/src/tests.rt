//! Packets that come and go, by chains of every length and by queues laid out against the device.

use crate::driver::*;
use crate::{Net, NetError};
use ram_pages::Ram;
use std::test::Fail;

#[test]
fn a_packet_of_another_length_is_refused(rt: HostRuntime) -> Result<(), Fail> {
    let alloc = rt.alloc();
    let mut ram = Ram::new(alloc, 1)?;
    let mut net = Net::new(alloc)?;
    let short = net.receive(alloc, &[1; 13], &mut ram);
    assert_eq!(rt; short, Err(NetError::BadLength(13)));
    let long = net.receive(alloc, &[1; 1515], &mut ram);
    assert_eq!(rt; long, Err(NetError::BadLength(1515)));
    Ok(())
}

#[test]
fn a_packet_stands_behind_its_header(rt: HostRuntime) -> Result<(), Fail> {
    let alloc = rt.alloc();
    let mut ram = Ram::new(alloc, 1)?;
    let mut net = ready(alloc)?;
    ram.copy_in(0x8000_4000, &[0xff; 27])?;
    show(&mut ram, 0, 0x8000_4000, 26)?;
    let packet = [1, 2, 3, 4, 5, 6, 7, 8, 9, 10, 11, 12, 13, 14];
    assert_eq!(rt; net.receive(alloc, &packet, &mut ram), Ok(()));
    assert_eq!(rt; ram.load(0x8000_4000, 4), Ok(0));
    assert_eq!(rt; ram.load(0x8000_4004, 4), Ok(0));
    assert_eq!(rt; ram.load(0x8000_4008, 4), Ok(0x0001_0000));
    assert_eq!(rt; ram.load(0x8000_400c, 4), Ok(0x0403_0201));
    assert_eq!(rt; ram.load(0x8000_4018, 4), Ok(0x00ff_0e0d));
    assert_eq!(rt; ram.load(RECEIVE + USED + 8, 4), Ok(26));
    assert_eq!(rt; ram.load(RECEIVE + USED + 2, 2), Ok(1));
    assert!(rt; net.irq());
    Ok(())
}

#[test]
fn a_chain_that_is_too_short_is_used_with_nothing(rt: HostRuntime) -> Result<(), Fail> {
    let alloc = rt.alloc();
    let mut ram = Ram::new(alloc, 1)?;
    let mut net = ready(alloc)?;
    show(&mut ram, 0, 0x8000_4000, 25)?;
    assert_eq!(rt; net.receive(alloc, &[7; 14], &mut ram), Ok(()));
    assert_eq!(rt; ram.load(0x8000_4008, 4), Ok(0));
    assert_eq!(rt; ram.load(0x8000_400c, 4), Ok(0));
    assert_eq!(rt; ram.load(RECEIVE + USED + 8, 4), Ok(0));
    assert_eq!(rt; ram.load(RECEIVE + USED + 2, 2), Ok(1));
    show(&mut ram, 1, 0x8000_4000, 26)?;
    net.notify(alloc, 0, &mut ram)?;
    assert_eq!(rt; ram.load(RECEIVE + USED + 2, 2), Ok(1));
    Ok(())
}

#[test]
fn the_seventeenth_packet_is_dropped(rt: HostRuntime) -> Result<(), Fail> {
    let alloc = rt.alloc();
    let mut ram = Ram::new(alloc, 1)?;
    let mut net = ready(alloc)?;
    for k in 0..17u8 {
        assert_eq!(rt; net.receive(alloc, &[k; 14], &mut ram), Ok(()));
    }
    for k in 0..17u32 {
        show(&mut ram, k, 0x8000_4000 + 64 * k, 26)?;
    }
    net.notify(alloc, 0, &mut ram)?;
    assert_eq!(rt; ram.load(RECEIVE + USED + 2, 2), Ok(16));
    for k in 0..16u32 {
        assert_eq!(rt; ram.load(0x8000_400c + 64 * k, 1), Ok(k));
    }
    assert_eq!(rt; ram.load(0x8000_440a, 1), Ok(0));
    Ok(())
}

#[test]
fn a_transmit_chain_of_a_packet_s_length_is_sent(rt: HostRuntime) -> Result<(), Fail> {
    let alloc = rt.alloc();
    let mut ram = Ram::new(alloc, 1)?;
    let mut net = ready(alloc)?;
    offer(&mut ram, 0, 0x8000_4000, 26)?;
    offer(&mut ram, 1, 0x8000_4000, 25)?;
    net.notify(alloc, 1, &mut ram)?;
    assert_eq!(rt; ram.load(TRANSMIT + USED + 2, 2), Ok(2));
    assert_eq!(rt; ram.load(TRANSMIT + USED + 8, 4), Ok(0));
    assert_eq!(rt; ram.load(TRANSMIT + USED + 16, 4), Ok(0));
    let sent = net.take_sent(alloc);
    assert_eq!(rt; sent.as_slice().len(), 1);
    for packet in sent.as_slice() {
        assert_eq!(rt; packet.bytes.as_slice(), [0; 14].as_slice());
    }
    Ok(())
}

#[test]
fn a_packet_that_meets_a_bad_chain_waits(rt: HostRuntime) -> Result<(), Fail> {
    let alloc = rt.alloc();
    let mut ram = Ram::new(alloc, 1)?;
    let mut net = ready(alloc)?;
    show(&mut ram, 0, 0x8010_0000, 26)?;
    assert_eq!(rt; net.receive(alloc, &[7; 14], &mut ram), Ok(()));
    assert_eq!(rt; net.read(0x70, 4), 0x44);
    net.write(0x70, 0);
    start(&mut net, RECEIVE + USED);
    show(&mut ram, 0, 0x8000_4000, 26)?;
    net.notify(alloc, 0, &mut ram)?;
    assert_eq!(rt; ram.load(0x8000_400c, 1), Ok(7));
    Ok(())
}

#[test]
fn a_reset_drops_the_packets_that_wait(rt: HostRuntime) -> Result<(), Fail> {
    let alloc = rt.alloc();
    let mut ram = Ram::new(alloc, 1)?;
    let mut net = Net::new(alloc)?;
    assert_eq!(rt; net.receive(alloc, &[7; 14], &mut ram), Ok(()));
    net.write(0x70, 0);
    net.reset();
    start(&mut net, RECEIVE + USED);
    show(&mut ram, 0, 0x8000_4000, 26)?;
    net.notify(alloc, 0, &mut ram)?;
    assert_eq!(rt; ram.load(RECEIVE + USED + 2, 2), Ok(0));
    Ok(())
}

#[test]
fn a_missing_used_ring_ends_a_notify(rt: HostRuntime) -> Result<(), Fail> {
    let alloc = rt.alloc();
    let mut ram = Ram::new(alloc, 1)?;
    let mut net = Net::new(alloc)?;
    start(&mut net, 0x8010_0000 - 0x203);
    for k in 0..2u8 {
        assert_eq!(rt; net.receive(alloc, &[k + 1; 14], &mut ram), Ok(()));
    }
    show(&mut ram, 0, 0x8000_4000, 26)?;
    show(&mut ram, 1, 0x8000_4040, 26)?;
    net.notify(alloc, 0, &mut ram)?;
    assert_eq!(rt; ram.load(0x8000_400c, 1), Ok(1));
    assert_eq!(rt; ram.load(0x8000_404c, 1), Ok(0));
    assert_eq!(rt; net.read(0x70, 4), 0x44);
    Ok(())
}

#[test]
fn a_packet_over_the_rings_is_written_before_the_used_entry(rt: HostRuntime) -> Result<(), Fail> {
    let alloc = rt.alloc();
    let mut ram = Ram::new(alloc, 1)?;
    let mut net = ready(alloc)?;
    show(&mut ram, 0, RECEIVE + USED, 26)?;
    assert_eq!(rt; net.receive(alloc, &[7; 14], &mut ram), Ok(()));
    assert_eq!(rt; ram.load(RECEIVE + USED, 4), Ok(0x0001_0000));
    assert_eq!(rt; ram.load(RECEIVE + USED + 4, 4), Ok(0));
    assert_eq!(rt; ram.load(RECEIVE + USED + 8, 4), Ok(26));
    assert_eq!(rt; ram.load(RECEIVE + USED + 12, 4), Ok(0x0707_0707));
    Ok(())
}

#[test]
fn the_index_goes_on_behind_65536(rt: HostRuntime) -> Result<(), Fail> {
    let alloc = rt.alloc();
    let mut ram = Ram::new(alloc, 1)?;
    let mut net = ready(alloc)?;
    for k in 0..64u32 {
        offer(&mut ram, k, 0x8000_4000, 12)?;
    }
    for round in 1..1025u32 {
        ram.store(TRANSMIT + AVAILABLE + 2, 2, 64 * round)?;
        net.notify(alloc, 1, &mut ram)?;
    }
    assert_eq!(rt; ram.load(TRANSMIT + USED + 2, 2), Ok(0));
    offer(&mut ram, 0, 0x8000_4000, 26)?;
    net.notify(alloc, 1, &mut ram)?;
    assert_eq!(rt; ram.load(TRANSMIT + USED + 2, 2), Ok(1));
    let sent = net.take_sent(alloc);
    assert_eq!(rt; sent.as_slice().len(), 1);
    Ok(())
}

#[test]
fn a_share_keeps_its_packets(rt: HostRuntime) -> Result<(), Fail> {
    let alloc = rt.alloc();
    let mut ram = Ram::new(alloc, 1)?;
    let mut net = ready(alloc)?;
    assert_eq!(rt; net.receive(alloc, &[7; 14], &mut ram), Ok(()));
    let mut other = net.share(alloc)?;
    net.reset();
    show(&mut ram, 0, 0x8000_4000, 26)?;
    other.notify(alloc, 0, &mut ram)?;
    assert_eq!(rt; ram.load(0x8000_400c, 1), Ok(7));
    Ok(())
}
