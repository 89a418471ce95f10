//! LR.W, SC.W and the atomic operations on memory.
ghost use Rattle.std.specs.Prelude.{◌≡◌, ◌≢◌, ◌<◌, ◌%◌, ◌==◌, IsTrue, Some};
ghost use Rattle.rv_exec.specs.Rows.{Reaches, Refuses, wants_memory, store_if_reserved, reserves, is_reserved, stores_if_reserved, combined, modifies, kept_by_store, given};

use crate::accesses::forget_reservation;
use crate::arithmetic::{max_signed, min_signed};
use crate::bus::{Bus, BusError};
use crate::done::Done;
use crate::hart::Hart;
use crate::jumps::retire;
use crate::traps::{LOAD_FAULT, MISALIGNED_LOAD, MISALIGNED_STORE, STORE_FAULT, trap};
use rv_decode::Op;

/// LR.W.
#[inline(never)]
#[tactic(auto, unfolding(crate::specs::Rows::reserves))]
pub fn load_reserved<B: Bus>(h: &mut Hart, bus: &mut B, rd: u8, at: u32) -> Done
    requires { rd < 32 }
    ensures meaning { Reaches (reserves B.answers h.old bus.old rd at) result h.new bus.new }
    ensures memory { result ≢ Done.NoMemory }
{
    if at % 4 != 0 {
        return trap(MISALIGNED_LOAD, at);
    }
    if !bus.is_ram(at) {
        return trap(LOAD_FAULT, at);
    }
    match bus.load(at, 4) {
        Ok(value) => {
            h.reservation = Some(at);
            retire(h, rd, value)
        }
        Err(_) => unreachable!(),
    }
}

/// Whether the reservation is at the address.
pub fn is_reserved(h: &Hart, at: u32) -> bool
    ensures { result ≡ is_reserved h.now.reservation at }
{
    match h.reservation {
        Some(reserved) => reserved == at,
        None => false,
    }
}

/// SC.W.
#[inline(never)]
#[tactic(auto, unfolding(crate::specs::Rows::stores_if_reserved))]
pub fn store_conditional<B: Bus>(h: &mut Hart, bus: &mut B, rd: u8, at: u32, value: u32) -> Done
    requires { rd < 32 }
    ensures meaning { result ≢ Done.NoMemory →
        Reaches (stores_if_reserved B.answers h.old bus.old rd at value) result h.new bus.new }
    ensures memory { result ≡ Done.NoMemory →
        Refuses (stores_if_reserved B.answers h.old bus.old rd at value)
        h.old bus.old h.new bus.new }
    ensures wants { result ≡ Done.NoMemory →
        IsTrue (wants_memory B.answers bus.old (store_if_reserved h.old at)) }
{
    if at % 4 != 0 {
        return trap(MISALIGNED_STORE, at);
    }
    if !bus.is_ram(at) {
        return trap(STORE_FAULT, at);
    }
    if !is_reserved(h, at) {
        h.reservation = None;
        return retire(h, rd, 1);
    }
    match bus.store(at, 4, value) {
        Ok(()) => {
            h.reservation = None;
            retire(h, rd, 0)
        }
        Err(BusError::NoMemory) => Done::NoMemory,
        Err(_) => unreachable!(),
    }
}

/// What an atomic row writes back.
pub fn combined(op: Op, old: u32, b: u32) -> u32
    ensures { result ≡ combined op old b }
{
    match op {
        Op::AmoaddW => old.wrapping_add(b),
        Op::AmoxorW => old ^ b,
        Op::AmoorW => old | b,
        Op::AmoandW => old & b,
        Op::AmominW => min_signed(old, b),
        Op::AmomaxW => max_signed(old, b),
        Op::AmominuW => old.min(b),
        Op::AmomaxuW => old.max(b),
        _ => b,
    }
}

/// An atomic row: the old word goes to a register, and what the row makes of it back to the memory.
#[inline(never)]
#[tactic(auto, unfolding(crate::specs::Rows::modifies))]
pub fn modify<B: Bus>(h: &mut Hart, bus: &mut B, rd: u8, at: u32, op: Op, b: u32) -> Done
    requires { rd < 32 }
    ensures meaning { result ≢ Done.NoMemory →
        Reaches (modifies B.answers h.old bus.old rd at (λ old. combined op old b))
        result h.new bus.new }
    ensures memory { result ≡ Done.NoMemory →
        Refuses (modifies B.answers h.old bus.old rd at (λ old. combined op old b))
        h.old bus.old h.new bus.new }
    ensures wants { result ≡ Done.NoMemory →
        IsTrue (wants_memory B.answers bus.old (Some (at, 4))) }
{
    if at % 4 != 0 {
        return trap(MISALIGNED_STORE, at);
    }
    if !bus.is_ram(at) {
        return trap(STORE_FAULT, at);
    }
    let Ok(old) = bus.load(at, 4) else {
        unreachable!()
    };
    match bus.store(at, 4, combined(op, old, b)) {
        Ok(()) => {
            forget_reservation(h, at);
            retire(h, rd, old)
        }
        Err(BusError::NoMemory) => Done::NoMemory,
        Err(_) => unreachable!(),
    }
}
