//! Requests that end in any order, and answers to those that can't be met.

use crate::CompleteError;
use crate::driver::*;
use ram_pages::Ram;
use std::alloc::Global;
use std::test::Fail;

#[test]
fn two_reads_end_in_the_other_order(rt: HostRuntime) -> Result<(), Fail> {
    let alloc = rt.alloc();
    let mut ram = Ram::new(alloc, 1)?;
    let mut block = ready(alloc);
    show_reads(&mut ram)?;
    let requests = block.notify(alloc, &ram)?;
    assert_eq!(rt; requests.as_slice().len(), 2);
    assert_eq!(rt;
        finish(alloc, &mut block, 1, &[0x78; 512], &mut ram),
        Ok(())
    );
    assert_eq!(rt;
        finish(alloc, &mut block, 0, &[0x78; 512], &mut ram),
        Ok(())
    );
    assert_eq!(rt; ram.load(USED + 2, 2), Ok(2));
    assert_eq!(rt; ram.load(USED + 4, 4), Ok(3));
    assert_eq!(rt; ram.load(USED + 8, 4), Ok(513));
    assert_eq!(rt; ram.load(USED + 12, 4), Ok(0));
    assert_eq!(rt; ram.load(USED + 16, 4), Ok(513));
    assert!(rt; block.irq());
    Ok(())
}

#[test]
fn a_read_behind_a_write_sees_it(rt: HostRuntime) -> Result<(), Fail> {
    let alloc = rt.alloc();
    let mut ram = Ram::new(alloc, 1)?;
    let mut block = ready(alloc);
    show_write_and_read(&mut ram)?;
    block.notify(alloc, &ram)?;
    assert_eq!(rt; finish(alloc, &mut block, 0, &[], &mut ram), Ok(()));
    assert_eq!(rt;
        finish(alloc, &mut block, 1, &[0x78; 512], &mut ram),
        Ok(())
    );
    assert_eq!(rt; ram.load(0x8000_6000, 4), Ok(0x7979_7979));
    assert_eq!(rt; ram.load(USED + 8, 4), Ok(1));
    assert_eq!(rt; ram.load(USED + 16, 4), Ok(513));
    Ok(())
}

#[test]
fn a_read_before_a_write_sees_the_base(rt: HostRuntime) -> Result<(), Fail> {
    let alloc = rt.alloc();
    let mut ram = Ram::new(alloc, 1)?;
    let mut block = ready(alloc);
    show_write_and_read(&mut ram)?;
    ram.store_aligned(0x8000_6000, 4, 0x1234_5678)?;
    block.notify(alloc, &ram)?;
    assert_eq!(rt;
        finish(alloc, &mut block, 1, &[0x78; 512], &mut ram),
        Ok(())
    );
    assert_eq!(rt; finish(alloc, &mut block, 0, &[], &mut ram), Ok(()));
    assert_eq!(rt; ram.load_aligned(0x8000_6000, 4), Some(0x7878_7878));
    Ok(())
}

#[test]
fn a_write_after_a_share_shows_in_one_alone(rt: HostRuntime) -> Result<(), Fail> {
    let alloc = rt.alloc();
    let mut ram = Ram::new(alloc, 1)?;
    let mut block = ready(alloc);
    show_write_and_read(&mut ram)?;
    block.notify(alloc, &ram)?;
    let mut other = block.share(alloc)?;
    let mut there = ram.share()?;
    assert_eq!(rt; finish(alloc, &mut block, 0, &[], &mut ram), Ok(()));
    assert_eq!(rt;
        finish(alloc, &mut other, 1, &[0x78; 512], &mut there),
        Ok(())
    );
    assert_eq!(rt; there.load(0x8000_6000, 1), Ok(0x78));
    assert_eq!(rt;
        finish(alloc, &mut block, 1, &[0x78; 512], &mut ram),
        Ok(())
    );
    assert_eq!(rt; ram.load(0x8000_6000, 1), Ok(0x79));
    Ok(())
}

#[test]
fn a_reset_forgets_requests_and_keeps_the_next_id(rt: HostRuntime) -> Result<(), Fail> {
    let alloc = rt.alloc();
    let mut ram = Ram::new(alloc, 1)?;
    let mut block = ready(alloc);
    describe(&mut ram, 0, [HEADER, 16, NEXT, 1])?;
    describe(&mut ram, 1, [0x8000_6000, 513, WRITE, 0])?;
    show(&mut ram, 0, 0)?;
    block.notify(alloc, &ram)?;
    block.write(0x70, 0);
    block.reset();
    assert_eq!(rt; block.in_flight().len(), 0);
    let late = finish(alloc, &mut block, 0, &[], &mut ram);
    assert_eq!(rt; late, Err(CompleteError::NotInFlight(0)));
    assert_eq!(rt; ram.load(USED + 2, 2), Ok(0));
    let layout = Layout {
        size: 64,
        table: TABLE,
        available: AVAILABLE,
        used: USED,
    };
    start(&mut block, &layout);
    let requests = block.notify(alloc, &ram)?;
    for request in requests.as_slice() {
        assert_eq!(rt; request.id, 1);
    }
    assert_eq!(rt; block.in_flight().len(), 1);
    Ok(())
}

#[test]
fn a_chain_in_a_circle_asks_for_a_reset(rt: HostRuntime) -> Result<(), Fail> {
    let alloc = rt.alloc();
    let mut ram = Ram::new(alloc, 1)?;
    let mut block = ready(alloc);
    describe(&mut ram, 0, [HEADER, 16, NEXT, 0])?;
    show(&mut ram, 0, 0)?;
    block.notify(alloc, &ram)?;
    assert_eq!(rt; block.read(0x70, 4), 0x44);
    assert_eq!(rt; block.read(0x60, 4), 2);
    assert_eq!(rt; block.in_flight().len(), 0);
    Ok(())
}

/// The status of a request of this type that reads one byte and writes none.
fn status_of(alloc: Global, kind: u32) -> Result<u32, Fail> {
    let mut ram = Ram::new(alloc, 1)?;
    let mut block = ready(alloc);
    ram.store(HEADER, 4, kind)?;
    ram.store(STATUS, 1, 0xff)?;
    describe(&mut ram, 0, [HEADER, 17, NEXT, 1])?;
    describe(&mut ram, 1, [STATUS, 1, WRITE, 0])?;
    show(&mut ram, 0, 0)?;
    block.notify(alloc, &ram)?;
    finish(alloc, &mut block, 0, &[], &mut ram)?;
    Ok(ram.load(STATUS, 1)?)
}

#[test]
fn a_write_of_one_byte_fails_and_a_flush_does_not(rt: HostRuntime) -> Result<(), Fail> {
    let alloc = rt.alloc();
    assert_eq!(rt; status_of(alloc, 1)?, 1);
    assert_eq!(rt; status_of(alloc, 4)?, 0);
    assert_eq!(rt; status_of(alloc, 3)?, 2);
    Ok(())
}

#[test]
fn a_read_that_fails_is_told_and_nothing_else_can(rt: HostRuntime) -> Result<(), Fail> {
    let alloc = rt.alloc();
    let mut ram = Ram::new(alloc, 1)?;
    let mut block = ready(alloc);
    show_write_and_read(&mut ram)?;
    block.notify(alloc, &ram)?;
    let wrong = fail(alloc, &mut block, 0, &mut ram);
    assert_eq!(rt; wrong, Err(CompleteError::NotARead(0)));
    assert_eq!(rt; fail(alloc, &mut block, 1, &mut ram), Ok(()));
    assert_eq!(rt; ram.load(0x8000_6200, 1), Ok(1));
    assert_eq!(rt; ram.load(USED + 8, 4), Ok(1));
    Ok(())
}
