//! The core-local interruptor of one hart (Privileged ISA, Machine Timer Registers).

ghost use Rattle.std.specs.Prelude.{◌≡◌, ◌<◌, ◌^◌};
ghost use Rattle.clint_rtc.specs.Clint.{reset, mtime, is_due, deadline, StaysFor};
ghost use Rattle.clint_rtc.specs.ClintMap.{register_at, shown, read, put, written};

use crate::words::{high_half, joined, low_half};
use std::marker::Model;

/// The timer ticks once in so many nanoseconds.
const NANOSECONDS_OF_A_TICK: u64 = 100;

/// An `mtimecmp` beyond this counts as none.
const FARTHEST: u64 = 1 << 56;

/// A register of the CLINT that has an offset.
#[derive(Clone, Copy, PartialEq, Eq, Debug)]
enum Register {
    Msip,
    Mtimecmp,
    Mtimecmph,
    Mtime,
    Mtimeh,
}

impl Register {
    /// The register at this offset.
    fn at(off: u32) -> Option<Register>
        ensures { result ≡ register_at off }
    {
        Some(match off {
            0x0000 => Register::Msip,
            0x4000 => Register::Mtimecmp,
            0x4004 => Register::Mtimecmph,
            0xbff8 => Register::Mtime,
            0xbffc => Register::Mtimeh,
            _ => return None,
        })
    }
}

/// The software interrupt and the timer of the hart. Each clock is in nanoseconds.
#[derive(Clone, Copy, Debug)]
pub struct Clint {
    msip: bool,
    mtimecmp: u64,
}

impl Model for Clint {
    ghost use Rattle.clint_rtc.specs.Clint.{Timer};

    ghost Value = { Timer };

    ghost view = { λ c. record { msip = c.msip; mtimecmp = c.mtimecmp } };

    ghost inverse = { λ t. record { msip = t.msip; mtimecmp = t.mtimecmp } };
}

impl Clint {
    /// The registers at reset: `mtimecmp` lies as far ahead as can be.
    pub fn new() -> Clint
        ensures { result ≡ reset }
    {
        Clint {
            msip: false,
            mtimecmp: u64::MAX,
        }
    }

    /// What a register shows.
    fn shown(&self, register: Register, clock: u64) -> u32
        ensures { result ≡ shown self.now clock register }
    {
        match register {
            Register::Msip => u32::from(self.msip),
            Register::Mtimecmp => low_half(self.mtimecmp),
            Register::Mtimecmph => high_half(self.mtimecmp),
            Register::Mtime => low_half(mtime(clock)),
            Register::Mtimeh => high_half(mtime(clock)),
        }
    }

    /// Reads the word at this offset.
    pub fn read(&self, off: u32, clock: u64) -> u32
        ensures { result ≡ read self.now clock off }
    {
        match Register::at(off) {
            Some(register) => self.shown(register, clock),
            None => 0,
        }
    }

    /// Puts a word into a register. The time can't be written.
    fn put(&mut self, register: Register, value: u32)
        ensures { self.new ≡ put self.old value register }
    {
        match register {
            Register::Msip => self.msip = value % 2 == 1,
            Register::Mtimecmp => self.mtimecmp = joined(high_half(self.mtimecmp), value),
            Register::Mtimecmph => self.mtimecmp = joined(value, low_half(self.mtimecmp)),
            Register::Mtime | Register::Mtimeh => {}
        }
    }

    /// Writes the word at this offset.
    pub fn write(&mut self, off: u32, value: u32)
        ensures { self.new ≡ written self.old off value }
    {
        if let Some(register) = Register::at(off) {
            self.put(register, value);
        }
    }

    /// Whether the software interrupt is pending.
    pub fn msip(&self) -> bool
        ensures { result ≡ self.now.msip }
    {
        self.msip
    }

    /// Whether the timer interrupt is pending: at `mtimecmp` and from then on.
    pub fn mtip(&self, clock: u64) -> bool
        ensures { result ≡ is_due self.now clock }
    {
        mtime(clock) >= self.mtimecmp
    }

    /// The clock at which the timer interrupt begins to be pending, where that is ahead and near.
    pub fn deadline(&self, clock: u64) -> Option<u64>
        ensures { result ≡ deadline self.now clock }
    {
        if mtime(clock) < self.mtimecmp && self.mtimecmp <= FARTHEST {
            Some(self.mtimecmp * NANOSECONDS_OF_A_TICK)
        } else {
            None
        }
    }

    /// For how many nanoseconds the timer interrupt stays as it is, at least.
    #[tactic(auto, using(crate::proofs::Stays::stays))]
    pub fn stays_for(&self, clock: u64) -> u64
        requires { clock < 2 ^ 63 }
        ensures { StaysFor self.now clock result }
    {
        if self.mtip(clock) {
            return u64::MAX;
        }
        self.mtimecmp
            .saturating_mul(NANOSECONDS_OF_A_TICK)
            .saturating_sub(clock)
    }
}

/// The ticks of the timer, one in 100 nanoseconds.
fn mtime(clock: u64) -> u64
    ensures { result ≡ mtime clock }
{
    clock / NANOSECONDS_OF_A_TICK
}
