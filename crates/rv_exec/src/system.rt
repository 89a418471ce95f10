//! Control registers, calls, returns and waits.
ghost use Rattle.std.specs.Prelude.{◌≡◌, ◌≢◌, ok_or};
ghost use Rattle.rv_csr.specs.Table.{read_of};
ghost use Rattle.rv_decode.specs.Fields.{IsWithin};
ghost use Rattle.rv_exec.specs.Rows.{csr, calls, returns_from_trap, waits, may_wait, given, stepped};
ghost use Rattle.rv_exec.specs.Kinds.{changed, writes};

use crate::bus::Bus;
use crate::done::Done;
use crate::hart::Hart;
use crate::jumps::{retire, step};
use crate::traps::{CALL_IN_M, CALL_IN_U, ILLEGAL, trap};
use rv_csr::{Illegal, Inputs, Mode, reads_inputs};
use rv_decode::Ins;

// The number of mstatus, and the place of its field TW.
const MSTATUS: u16 = 0x300;

const TW: u32 = 21;

/// What a row makes of a control register.
#[derive(Clone, Copy)]
pub enum Change {
    Write,
    Set,
    Clear,
}

/// What a row writes to a control register, by what it read and its operand.
fn changed(change: Change, old: u32, value: u32) -> u32
    ensures { result ≡ changed change old value }
{
    match change {
        Change::Write => value,
        Change::Set => old | value,
        Change::Clear => old & !value,
    }
}

/// Whether the row writes. To set or clear bits with the source 0 writes nothing.
fn writes(change: Change, source: u32) -> bool
    ensures { result ≡ writes change source }
{
    match change {
        Change::Write => true,
        Change::Set | Change::Clear => source != 0,
    }
}

/// Nothing comes from outside.
const NOTHING: Inputs = Inputs {
    msip: false,
    mtip: false,
    meip: false,
    time: 0,
};

/// What is read at a register's number. The bus is asked what comes from outside only where that can
/// show, since it has to divide for it.
fn read<B: Bus>(h: &Hart, bus: &B, at: u16) -> Result<u32, Illegal>
    ensures { result
        ≡ ok_or (read_of h.now.csrs at h.now.mode (B.answers.inputs bus.now)) record {} }
{
    if reads_inputs(at) {
        h.csrs.read(at, h.mode, &bus.inputs())
    } else {
        h.csrs.read(at, h.mode, &NOTHING)
    }
}

/// A row on a control register. Its source is the number of its register, or its immediate.
#[inline(never)]
#[tactic(auto, unfolding(crate::specs::Rows::csr))]
pub fn exchange<B: Bus>(
    h: &mut Hart,
    bus: &B,
    ins: Ins,
    word: u32,
    change: Change,
    source: u32,
    value: u32,
) -> Done
    requires { IsWithin ins }
    ensures done { result ≡ (csr (B.answers.inputs bus.now) h.old word ins change source value).done }
    ensures hart { h.new ≡ (csr (B.answers.inputs bus.now) h.old word ins change source value).hart }
    ensures memory { result ≢ Done.NoMemory }
{
    let Ok(old) = read(h, bus, ins.csr) else {
        return trap(ILLEGAL, word);
    };
    if writes(change, source)
        && h.csrs
            .write(ins.csr, h.mode, changed(change, old, value))
            .is_err()
    {
        return trap(ILLEGAL, word);
    }
    retire(h, ins.rd, old)
}

/// ECALL.
#[inline(never)]
pub fn call(h: &Hart) -> Done
    ensures { result ≡ (calls h.now h.now.mode).done }
{
    match h.mode {
        Mode::U => trap(CALL_IN_U, 0),
        Mode::M => trap(CALL_IN_M, 0),
    }
}

/// MRET.
#[inline(never)]
#[tactic(auto, unfolding(crate::specs::Rows::returns_from_trap))]
pub fn return_from_trap(h: &mut Hart, word: u32) -> Done
    ensures done { result ≡ (returns_from_trap h.old word h.old.mode).done }
    ensures hart { h.new ≡ (returns_from_trap h.old word h.old.mode).hart }
    ensures memory { result ≢ Done.NoMemory }
{
    match h.mode {
        Mode::U => trap(ILLEGAL, word),
        Mode::M => {
            let (pc, mode) = h.csrs.mret();
            h.pc = pc;
            h.mode = mode;
            Done::Retired { idle: false }
        }
    }
}

/// Whether WFI is allowed.
fn may_wait(h: &Hart, inputs: &Inputs) -> bool
    ensures { result ≡ may_wait h.now.mode h.now.csrs }
{
    match h.mode {
        Mode::M => true,
        Mode::U => match h.csrs.read(MSTATUS, Mode::M, inputs) {
            Ok(status) => status >> TW & 1 == 0,
            Err(_) => true,
        },
    }
}

/// WFI.
#[inline(never)]
#[tactic(auto, unfolding(crate::specs::Rows::waits))]
pub fn wait(h: &mut Hart, inputs: &Inputs, word: u32) -> Done
    ensures done { result ≡ (waits inputs.now h.old word).done }
    ensures hart { h.new ≡ (waits inputs.now h.old word).hart }
    ensures memory { result ≢ Done.NoMemory }
{
    if !may_wait(h, inputs) {
        return trap(ILLEGAL, word);
    }
    let idle = !h.csrs.wakes(inputs);
    h.pc = h.pc.wrapping_add(4);
    Done::Retired { idle }
}
