//! The console: the UART, which asks for room before it takes a byte out.

ghost use Rattle.std.specs.Prelude.{◌≡◌, [], length, IfOk, OnOk, OnErr};
ghost use Rattle.uart16550.specs.Line.{reset, level, received};
ghost use Rattle.uart16550.specs.Map.{read, written};

use crate::NoMemory;
use std::alloc::Global;
use std::marker::Model;
use uart16550::Uart;

/// A UART whose room for output doesn't show: contracts see its line alone.
#[derive(Drop)]
pub struct Console {
    uart: Uart,
}

impl Model for Console {
    ghost use Rattle.uart16550.specs.Line.{Line};

    ghost Value = { Line };

    ghost view = { λ c. c.uart.line };
}

impl Console {
    /// The UART at reset.
    pub fn new(alloc: Global) -> Console
        ensures { result ≡ reset }
    {
        Console {
            uart: Uart::new(alloc),
        }
    }

    /// Reads the register at this offset.
    pub fn read(&mut self, off: u32) -> u8
        ensures { read self.old off ≡ (result, self.new) }
    {
        self.uart.read(off)
    }

    /// Writes the register at this offset. Only the transmitter's needs room.
    pub fn write(&mut self, off: u32, byte: u8) -> Result<(), NoMemory>
        ensures ok { OnOk result (self.new ≡ written self.old off byte) }
        ensures err { OnErr result (self.new ≡ self.old) }
        ensures transmitter { OnErr result (off ≡ 0) }
    {
        if off == 0 {
            self.uart.reserve_out()?;
        }
        self.uart.write(off, byte);
        Ok(())
    }

    /// Adds to the bytes that wait.
    pub fn receive(&mut self, bytes: &[u8]) -> Result<(), NoMemory>
        ensures ok { OnOk result (self.new ≡ received self.old bytes.now) }
        ensures err { OnErr result (self.new ≡ self.old) }
    {
        self.uart.receive(bytes)
    }

    /// The interrupt line.
    pub fn irq(&self) -> bool
        ensures { result ≡ level self.now }
    {
        self.uart.irq()
    }

    /// The output since the last take.
    pub fn take_out(&mut self) -> Vec<u8>
        ensures bytes { result.items ≡ self.old.out }
        ensures rest { self.new ≡ record self.old { out = [] } }
    {
        self.uart.take_out()
    }

    /// How many bytes of output weren't taken yet.
    pub fn untaken(&self) -> usize
        ensures { result ≡ length self.now.out }
    {
        self.uart.untaken()
    }

    /// How many bytes of output there were in all.
    pub fn total_out(&self) -> u64
        ensures { result ≡ self.now.total_out }
    {
        self.uart.total_out()
    }

    /// A console in the same state. Later changes of one don't show in the other.
    pub fn share(&self) -> Result<Console, NoMemory>
        ensures { IfOk result (λ c. c ≡ self.now) }
    {
        Ok(Console {
            uart: self.uart.share()?,
        })
    }
}
