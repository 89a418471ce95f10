//! Loads and stores.
ghost use Rattle.std.specs.Prelude.{◌*◌, ◌^◌, ◌≡◌, ◌≢◌, ◌<◌, ◌%◌, ◌==◌, ◌||◌, IsTrue, Some};
ghost use Rattle.rv_exec.specs.Rows.{Reaches, Refuses, wants_memory, loads, stores, stored_at, kept_by_store, given, stepped};
ghost use Rattle.rv_exec.specs.Kinds.{extended};

use crate::arithmetic::{extend_byte, extend_half};
use crate::bus::{Bus, BusError};
use crate::done::Done;
use crate::hart::Hart;
use crate::jumps::{retire, step};
use crate::traps::{LOAD_FAULT, MISALIGNED_LOAD, MISALIGNED_STORE, STORE_FAULT, trap};

/// How a load fills the high bits.
#[derive(Clone, Copy)]
pub enum Extend {
    Zeros,
    Byte,
    Half,
}

/// What a load puts into a register.
pub fn extended(extend: Extend, value: u32) -> u32
    requires byte { extend ≡ Extend.Byte → value < 256 }
    requires half { extend ≡ Extend.Half → value < 65536 }
    ensures { result ≡ extended extend value }
{
    match extend {
        Extend::Zeros => value,
        Extend::Byte => extend_byte(value),
        Extend::Half => extend_half(value),
    }
}

/// A load into a register.
#[tactic(auto, unfolding(crate::specs::Rows::loads))]
pub fn load<B: Bus>(h: &mut Hart, bus: &mut B, rd: u8, at: u32, size: u32, extend: Extend) -> Done
    requires rd { rd < 32 }
    requires size { IsTrue ((size == 1) || (size == 2) || (size == 4)) }
    requires byte { extend ≡ Extend.Byte → size ≡ 1 }
    requires half { extend ≡ Extend.Half → size ≡ 2 }
    ensures meaning { Reaches (loads B.answers h.old bus.old rd at size (extended extend))
        result h.new bus.new }
    ensures memory { result ≢ Done.NoMemory }
{
    if at % size != 0 {
        return trap(MISALIGNED_LOAD, at);
    }
    match bus.load(at, size) {
        Ok(value) => retire(h, rd, extended(extend, value)),
        Err(BusError::Fault) => trap(LOAD_FAULT, at),
        Err(BusError::NeedClock) => Done::NeedClock,
        Err(BusError::NoMemory) => unreachable!(),
    }
}

/// A store into a word takes the reservation of that word.
pub fn forget_reservation(h: &mut Hart, at: u32)
    ensures { h.new ≡ record h.old { reservation = kept_by_store h.old.reservation at } }
{
    if let Some(reserved) = h.reservation
        && reserved / 4 == at / 4
    {
        h.reservation = None;
    }
}

/// A store.
#[tactic(auto, unfolding(crate::specs::Rows::stores))]
pub fn store<B: Bus>(h: &mut Hart, bus: &mut B, at: u32, size: u32, value: u32) -> Done
    requires size { IsTrue ((size == 1) || (size == 2) || (size == 4)) }
    requires fits { value < 2 ^ (8 * size) }
    ensures meaning { result ≢ Done.NoMemory →
        Reaches (stores B.answers h.old bus.old at size value) result h.new bus.new }
    ensures memory { result ≡ Done.NoMemory →
        Refuses (stores B.answers h.old bus.old at size value) h.old bus.old h.new bus.new }
    ensures wants { result ≡ Done.NoMemory →
        IsTrue (wants_memory B.answers bus.old (Some (at, size))) }
{
    if at % size != 0 {
        return trap(MISALIGNED_STORE, at);
    }
    match bus.store(at, size, value) {
        Ok(()) => {
            forget_reservation(h, at);
            step(h)
        }
        Err(BusError::Fault) => trap(STORE_FAULT, at),
        Err(BusError::NeedClock) => unreachable!(),
        Err(BusError::NoMemory) => Done::NoMemory,
    }
}
