//! A guest's reads and writes, with worked values.

use super::*;
use std::test::Fail;

/// Writes a byte after making a place for it.
fn put(uart: &mut Uart, off: u32, byte: u8) -> Result<(), NoMemory> {
    uart.reserve_out()?;
    uart.write(off, byte);
    Ok(())
}

#[test]
fn bytes_go_both_ways(rt: HostRuntime) -> Result<(), Fail> {
    let mut uart = Uart::new(rt.alloc());
    uart.receive(b"ab")?;
    put(&mut uart, 1, 3)?;
    assert!(rt; uart.irq());
    assert_eq!(rt; uart.read(2), 0x04);
    assert_eq!(rt; uart.read(5), 0x61);
    assert_eq!(rt; uart.read(0), b'a');
    assert_eq!(rt; uart.waiting(), 1);
    put(&mut uart, 2, 3)?;
    assert_eq!(rt; uart.read(2), 0xc2);
    assert_eq!(rt; uart.read(2), 0xc1);
    put(&mut uart, 0, b'x')?;
    let copy = uart.share()?;
    let out = uart.take_out();
    assert_eq!(rt; out.as_slice(), b"x".as_slice());
    assert_eq!(rt; uart.total_out(), 1);
    assert_eq!(rt; copy.total_out(), 1);
    put(&mut uart, 3, 0x80)?;
    put(&mut uart, 0, 12)?;
    assert_eq!(rt; uart.read(0), 12);
    Ok(())
}
