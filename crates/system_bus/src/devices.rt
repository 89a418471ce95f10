//! RAM and the devices, as the hart sees them.

ghost use Rattle.std.specs.Prelude.{◌≡◌, ◌<◌, ◌*◌, ◌^◌, Err, IsTrue, IfOk, is_ok, if◌then◌else◌};
ghost use Rattle.ram_pages.specs.Memory.{IsSize};
ghost use Rattle.rv_exec.specs.Rows.{is_clock_error};
ghost use Rattle.system_bus.specs.Time.{Time as AClock};
ghost use Rattle.system_bus.specs.Lines.{levels};
ghost use Rattle.system_bus.specs.MemoryMap.{register_at as register_at_of};
ghost use Rattle.system_bus.specs.Access.{inputs, load, register_read, register_after_read, RegisterTakes, takes_output};

use crate::NoMemory;
use crate::console::Console;
use crate::memory::Memory;
use crate::memory_map::{Region, register_at};
use crate::time::Time;
use clint_rtc::{Clint, Finisher, Rtc};
use plic_gate::Plic;
use ram_pages::RamError;
use rv_csr::Inputs;
use rv_exec::{Bus, BusError};

/// The UART's source at the PLIC.
const UART_SOURCE: u32 = 10;

/// Nanoseconds of a tick of `mtime`.
const TICK: u64 = 100;

/// What the bus reaches.
#[derive(Drop)]
pub struct Devices {
    pub ram: Memory,
    pub uart: Console,
    pub clint: Clint,
    pub plic: Plic,
    /// The host's clock.
    pub rtc: Rtc,
    pub finisher: Finisher,
    /// The virtual clock.
    pub time: Time,
}

impl Devices {
    /// Sets the level of each device's source to its interrupt line.
    #[tactic(auto, unfolding(crate::specs::Lines::levels))]
    pub fn set_levels(&mut self)
        ensures levels { self.new ≡ levels self.old }
        ensures time { self.new.time ≡ self.old.time }
    {
        self.plic.set_level(UART_SOURCE, self.uart.irq());
    }

    /// The interrupts' lines and the time, where the clock shows this.
    #[tactic(auto, unfolding(crate::specs::Access::inputs))]
    pub fn inputs_at(&self, time: &Time) -> Inputs
        ensures { result ≡ inputs (record self.now { time = time.now }) }
    {
        let clock = time.nanoseconds();
        Inputs {
            msip: self.clint.msip(),
            mtip: self.clint.mtip(clock),
            meip: self.plic.meip(),
            time: clock / TICK,
        }
    }

    /// Reads the register at an address.
    #[inline(never)]
    fn load_register(&mut self, at: u32, size: u32) -> Result<u32, BusError>
        ensures answer { result ≡ register_read self.old (register_at_of at size) }
        ensures after { self.new
            ≡ (if is_ok result then register_after_read self.old (register_at_of at size)
            else self.old) }
        ensures fits { IfOk result (λ value. value < 2 ^ (8 * size)) }
    {
        let Some(register) = register_at(at, size) else {
            return Err(BusError::Fault);
        };
        let off = register.offset;
        match register.region {
            Region::Finisher => Ok(0),
            Region::Rtc => match self.rtc.read(off) {
                Ok(word) => Ok(word),
                Err(_) => Err(BusError::NeedClock),
            },
            Region::Clint => Ok(self.clint.read(off, self.time.nanoseconds())),
            Region::Plic => Ok(self.plic.read(off)),
            Region::Uart => Ok(u32::from(self.uart.read(off))),
        }
    }

    /// Writes the register at an address.
    #[inline(never)]
    fn store_register(&mut self, at: u32, size: u32, value: u32) -> Result<(), BusError>
        requires { value < 2 ^ (8 * size) }
        ensures taken { RegisterTakes self.old (register_at_of at size) value result self.new }
        ensures memory { result ≡ Err BusError.NoMemory →
            IsTrue (takes_output (register_at_of at size)) }
    {
        let Some(register) = register_at(at, size) else {
            return Err(BusError::Fault);
        };
        let off = register.offset;
        match register.region {
            Region::Finisher => self.finisher.write(off, value),
            Region::Rtc => {}
            Region::Clint => self.clint.write(off, value),
            Region::Plic => self.plic.write(off, value),
            Region::Uart => {
                if self.uart.write(off, value as u8).is_err() {
                    return Err(BusError::NoMemory);
                }
            }
        }
        Ok(())
    }

    /// Whether a load of so many bytes reads the host's clock and has no value in hand, whatever the
    /// virtual clock shows.
    #[tactic(auto, unfolding(crate::specs::Access::load))]
    pub fn waits_for_clock(&self, at: u32, size: u32) -> bool
        requires { IsSize size }
        ensures { (time : AClock) → result
            ≡ is_clock_error (load (record self.now { time = time }) at size) }
    {
        if self.ram.read(at, size).is_some() {
            return false;
        }
        match register_at(at, size) {
            Some(register) => {
                register.region == Region::Rtc
                    && register.offset == 0
                    && self.rtc.in_hand().is_none()
            }
            None => false,
        }
    }

    /// Devices in the same state. Later changes of one don't show in the other.
    pub fn share(&self) -> Result<Devices, NoMemory>
        ensures { IfOk result (λ d. d ≡ self.now) }
    {
        Ok(Devices {
            ram: self.ram.share()?,
            uart: self.uart.share()?,
            clint: self.clint,
            plic: self.plic,
            rtc: self.rtc,
            finisher: self.finisher,
            time: self.time,
        })
    }
}

impl Bus for Devices {
    ghost use Rattle.system_bus.specs.Access.{answers as answers_of};

    ghost answers = { answers_of };

    #[inline(always)]
    #[tactic(auto, unfolding(crate::specs::Access::load, crate::specs::Access::loaded), using(crate::proofs::Lying::lying))]
    fn load(&mut self, at: u32, size: u32) -> Result<u32, BusError> {
        if let Some(value) = self.ram.read_aligned(at, size) {
            return Ok(value);
        }
        self.load_register(at, size)
    }

    #[inline(always)]
    #[tactic(auto, unfolding(crate::specs::Access::can_store, crate::specs::Access::stored, crate::specs::Access::may_want, crate::specs::Memory::ram_store), using(crate::proofs::Lying::lying))]
    fn store(&mut self, at: u32, size: u32, value: u32) -> Result<(), BusError> {
        match self.ram.ram.store_aligned(at, size, value) {
            Ok(()) => return Ok(()),
            Err(RamError::NoMemory) => return Err(BusError::NoMemory),
            Err(RamError::Outside) => {}
        }
        self.store_register(at, size, value)
    }

    fn is_ram(&self, at: u32) -> bool {
        self.ram.holds(at, 4)
    }

    #[tactic(auto, unfolding(crate::specs::Access::inputs))]
    fn inputs(&self) -> Inputs {
        self.inputs_at(&self.time)
    }
}
