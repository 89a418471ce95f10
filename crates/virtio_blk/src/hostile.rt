//! Queues that a driver lays out against the device.

use crate::Block;
use crate::driver::*;
use overlay_disk::Overlay;
use ram_pages::Ram;
use std::alloc::Global;
use std::test::Fail;

/// A device of a disk of two sectors whose queue is laid out so.
fn laid_out(alloc: Global, layout: &Layout) -> Block {
    let mut block = Block::new(alloc, Overlay::new(1024));
    start(&mut block, layout);
    block
}

/// Shows a read of one sector into a place as head 0.
fn show_read(ram: &mut Ram, at: u32) -> Result<(), Fail> {
    describe(ram, 0, [HEADER, 16, NEXT, 1])?;
    describe(ram, 1, [at, 512, NEXT | WRITE, 2])?;
    describe(ram, 2, [STATUS, 1, WRITE, 0])?;
    show(ram, 0, 0)
}

#[test]
fn the_used_entry_is_written_over_the_data(rt: HostRuntime) -> Result<(), Fail> {
    let alloc = rt.alloc();
    let mut ram = Ram::new(alloc, 1)?;
    let mut block = ready(alloc);
    show_read(&mut ram, USED)?;
    block.notify(alloc, &ram)?;
    assert_eq!(rt;
        finish(alloc, &mut block, 0, &[0x78; 512], &mut ram),
        Ok(())
    );
    assert_eq!(rt; ram.load(USED, 4), Ok(0x0001_7878));
    assert_eq!(rt; ram.load(USED + 4, 4), Ok(0));
    assert_eq!(rt; ram.load(USED + 8, 4), Ok(513));
    assert_eq!(rt; ram.load(USED + 12, 4), Ok(0x7878_7878));
    Ok(())
}

#[test]
fn data_over_the_available_ring_sets_its_flags(rt: HostRuntime) -> Result<(), Fail> {
    let alloc = rt.alloc();
    let mut ram = Ram::new(alloc, 1)?;
    let mut block = ready(alloc);
    show_read(&mut ram, AVAILABLE)?;
    block.notify(alloc, &ram)?;
    assert_eq!(rt;
        finish(alloc, &mut block, 0, &[0x01; 512], &mut ram),
        Ok(())
    );
    assert_eq!(rt; ram.load(USED + 2, 2), Ok(1));
    assert!(rt; !block.irq());
    block.notify(alloc, &ram)?;
    assert_eq!(rt; block.read(0x70, 4), 0x44);
    Ok(())
}

#[test]
fn the_later_of_two_ranges_at_one_place_wins(rt: HostRuntime) -> Result<(), Fail> {
    let alloc = rt.alloc();
    let mut ram = Ram::new(alloc, 1)?;
    let mut block = ready(alloc);
    describe(&mut ram, 0, [HEADER, 16, NEXT, 1])?;
    describe(&mut ram, 1, [0x8000_6000, 512, NEXT | WRITE, 2])?;
    describe(&mut ram, 2, [0x8000_6000, 513, WRITE, 0])?;
    show(&mut ram, 0, 0)?;
    block.notify(alloc, &ram)?;
    let mut base = [0x78; 1024];
    base[512] = 0x79;
    assert_eq!(rt; finish(alloc, &mut block, 0, &base, &mut ram), Ok(()));
    assert_eq!(rt; ram.load(0x8000_6000, 2), Ok(0x7879));
    assert_eq!(rt; ram.load(0x8000_6200, 1), Ok(0));
    assert_eq!(rt; ram.load(USED + 8, 4), Ok(1025));
    Ok(())
}

#[test]
fn a_table_may_end_with_the_last_byte(rt: HostRuntime) -> Result<(), Fail> {
    let alloc = rt.alloc();
    let mut ram = Ram::new(alloc, 1)?;
    let mut layout = Layout {
        size: 4,
        table: 0x800f_ffc0,
        available: AVAILABLE,
        used: USED,
    };
    describe_at(&mut ram, 0x800f_fff0, [HEADER, 16, NEXT, 2])?;
    describe_at(&mut ram, 0x800f_ffe0, [0x8000_6000, 513, WRITE, 0])?;
    show(&mut ram, 0, 3)?;
    let mut block = laid_out(alloc, &layout);
    block.notify(alloc, &ram)?;
    assert_eq!(rt; block.in_flight().len(), 1);
    layout.table = 0x800f_ffc1;
    let mut beyond = laid_out(alloc, &layout);
    beyond.notify(alloc, &ram)?;
    assert_eq!(rt; beyond.in_flight().len(), 0);
    assert_eq!(rt; beyond.read(0x70, 4), 0x44);
    Ok(())
}

#[test]
fn a_queue_that_shrinks_keeps_the_device_s_place(rt: HostRuntime) -> Result<(), Fail> {
    let alloc = rt.alloc();
    let mut ram = Ram::new(alloc, 1)?;
    let mut block = ready(alloc);
    show_reads(&mut ram)?;
    block.notify(alloc, &ram)?;
    assert_eq!(rt;
        finish(alloc, &mut block, 0, &[0x78; 512], &mut ram),
        Ok(())
    );
    block.write(0x38, 1);
    assert_eq!(rt;
        finish(alloc, &mut block, 1, &[0x78; 512], &mut ram),
        Ok(())
    );
    assert_eq!(rt; ram.load(USED + 2, 2), Ok(2));
    assert_eq!(rt; ram.load(USED + 4, 4), Ok(3));
    assert_eq!(rt; ram.load(USED + 12, 4), Ok(0));
    assert_eq!(rt; ram.load(USED + 16, 4), Ok(0));
    Ok(())
}

#[test]
fn a_used_ring_over_the_available_ring_makes_the_index_lead(rt: HostRuntime) -> Result<(), Fail> {
    let alloc = rt.alloc();
    let mut ram = Ram::new(alloc, 1)?;
    let layout = Layout {
        size: 64,
        table: TABLE,
        available: AVAILABLE,
        used: AVAILABLE,
    };
    let mut block = laid_out(alloc, &layout);
    show_reads(&mut ram)?;
    block.notify(alloc, &ram)?;
    assert_eq!(rt;
        finish(alloc, &mut block, 0, &[0x78; 512], &mut ram),
        Ok(())
    );
    assert_eq!(rt; ram.load(AVAILABLE + 2, 2), Ok(1));
    block.notify(alloc, &ram)?;
    assert_eq!(rt; block.read(0x70, 4), 0x44);
    assert_eq!(rt; block.in_flight().len(), 1);
    Ok(())
}

#[test]
fn without_a_used_ring_a_request_is_done_all_the_same(rt: HostRuntime) -> Result<(), Fail> {
    let alloc = rt.alloc();
    let mut ram = Ram::new(alloc, 1)?;
    let layout = Layout {
        size: 64,
        table: TABLE,
        available: AVAILABLE,
        used: 0x8010_0000 - 0x203,
    };
    let mut block = laid_out(alloc, &layout);
    show_read(&mut ram, 0x8000_6000)?;
    block.notify(alloc, &ram)?;
    assert_eq!(rt;
        finish(alloc, &mut block, 0, &[0x78; 512], &mut ram),
        Ok(())
    );
    assert_eq!(rt; ram.load(0x8000_6000, 1), Ok(0x78));
    assert_eq!(rt; block.read(0x70, 4), 0x44);
    assert_eq!(rt; block.in_flight().len(), 0);
    Ok(())
}

#[test]
fn as_many_requests_are_in_flight_as_the_queue_has(rt: HostRuntime) -> Result<(), Fail> {
    let alloc = rt.alloc();
    let mut ram = Ram::new(alloc, 1)?;
    let mut block = ready(alloc);
    show_read(&mut ram, 0x8000_6000)?;
    for place in 0..64 {
        show(&mut ram, place, 0)?;
    }
    let requests = block.notify(alloc, &ram)?;
    assert_eq!(rt; requests.as_slice().len(), 64);
    for id in 0..64 {
        assert_eq!(rt;
            finish(alloc, &mut block, id, &[0x78; 512], &mut ram),
            Ok(())
        );
    }
    assert_eq!(rt; block.in_flight().len(), 0);
    assert_eq!(rt; ram.load(USED + 2, 2), Ok(64));
    Ok(())
}
