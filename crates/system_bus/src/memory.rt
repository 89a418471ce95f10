//! RAM at its place on the bus.

ghost use Rattle.std.specs.Prelude.{◌≡◌, ◌<◌, ◌*◌, ◌%◌, ◌^◌, IfSome, IfOk, is_some};
ghost use Rattle.ram_pages.specs.Memory.{IsSize};
ghost use Rattle.system_bus.specs.Memory.{ram_load, lies_in};

use crate::NoMemory;
use ram_pages::{Ram, RamError};
use rv_csr::Inputs;
use rv_exec::{Bus, BusError};
use std::marker::Model;

/// RAM alone, as a bus with no device beside it.
#[derive(Drop)]
pub struct Memory {
    pub ram: Ram,
}

impl Model for Memory {
    ghost use Rattle.std.specs.Prelude.{ℕ, List};

    ghost Value = { List ℕ };

    ghost view = { λ m. m.ram };
}

impl Memory {
    /// The number in a range of RAM.
    #[inline(always)]
    #[tactic(auto, unfolding(crate::specs::Memory::ram_load), using(crate::proofs::Lying::lying))]
    pub fn read(&self, at: u32, size: u32) -> Option<u32>
        requires { IsSize size }
        ensures value { result ≡ ram_load self.now at size }
        ensures lies { is_some result ≡ lies_in self.now at size }
        ensures fits { IfSome result (λ value. value < 2 ^ (8 * size)) }
    {
        match self.ram.load(at, size) {
            Ok(value) => Some(value),
            Err(_) => None,
        }
    }

    /// The same at a multiple of the range's size.
    #[inline(always)]
    #[tactic(auto, unfolding(crate::specs::Memory::ram_load), using(crate::proofs::Lying::lying))]
    pub fn read_aligned(&self, at: u32, size: u32) -> Option<u32>
        requires size { IsSize size }
        requires aligned { at % size ≡ 0 }
        ensures value { result ≡ ram_load self.now at size }
        ensures lies { is_some result ≡ lies_in self.now at size }
        ensures fits { IfSome result (λ value. value < 2 ^ (8 * size)) }
    {
        self.ram.load_aligned(at, size)
    }

    /// The word at an address, which mostly is a multiple of 4.
    #[inline(always)]
    pub fn fetch(&self, at: u32) -> Option<u32>
        ensures value { result ≡ ram_load self.now at 4 }
        ensures fits { IfSome result (λ word. word < 2 ^ 32) }
    {
        if at % 4 == 0 {
            self.read_aligned(at, 4)
        } else {
            self.read(at, 4)
        }
    }

    /// Whether a range lies in RAM.
    pub fn holds(&self, at: u32, size: u32) -> bool
        ensures { result ≡ lies_in self.now at size }
    {
        self.ram.holds(u64::from(at), u64::from(size))
    }

    /// A RAM of the same bytes. Later changes of one don't show in the other.
    pub fn share(&self) -> Result<Memory, NoMemory>
        ensures { IfOk result (λ m. m ≡ self.now) }
    {
        Ok(Memory {
            ram: self.ram.share()?,
        })
    }
}

impl Bus for Memory {
    ghost use Rattle.system_bus.specs.Memory.{ram_answers};

    ghost answers = { ram_answers };

    #[inline(always)]
    fn load(&mut self, at: u32, size: u32) -> Result<u32, BusError> {
        match self.read_aligned(at, size) {
            Some(value) => Ok(value),
            None => Err(BusError::Fault),
        }
    }

    #[inline(always)]
    #[tactic(auto, unfolding(crate::specs::Memory::ram_store), using(crate::proofs::Lying::lying))]
    fn store(&mut self, at: u32, size: u32, value: u32) -> Result<(), BusError> {
        match self.ram.store_aligned(at, size, value) {
            Ok(()) => Ok(()),
            Err(RamError::NoMemory) => Err(BusError::NoMemory),
            Err(RamError::Outside) => Err(BusError::Fault),
        }
    }

    fn is_ram(&self, at: u32) -> bool {
        self.holds(at, 4)
    }

    fn inputs(&self) -> Inputs {
        Inputs {
            msip: false,
            mtip: false,
            meip: false,
            time: 0,
        }
    }
}
