//! Guests of a few words: one prints a letter and ends the run, one traps, and those that use RAM
//! and devices.

ghost use Rattle.std.specs.Prelude.{◌≡◌, ◌<◌, ◌≤◌, ◌^◌};
ghost use Rattle.event_log.specs.Spelling.{IsEvent};

mod guests;

use super::*;
use elf_load::load;
use event_log::Event;
use rv_csr::{Illegal, Mode};
use rv_exec::Bus;
use std::alloc::Global;
use std::marker::Brand;
use std::process::Abort;
use std::sync::ledger::{Blank, Ledger};
use std::test::Fail;

/// Writes `A` to the UART, and then 5555 to the finisher.
const PRINTS_A: [u8; 28] = [
    0xb7, 0x02, 0x00, 0x10, // lui t0, 0x10000
    0x13, 0x03, 0x10, 0x04, // li t1, 'A'
    0x23, 0x80, 0x62, 0x00, // sb t1, 0(t0)
    0xb7, 0x03, 0x10, 0x00, // lui t2, 0x100
    0x37, 0x53, 0x00, 0x00, // lui t1, 5
    0x13, 0x03, 0x53, 0x55, // addi t1, t1, 0x555
    0x23, 0xa0, 0x63, 0x00, // sw t1, 0(t2)
];

/// `ecall`
const CALLS: [u8; 4] = [0x73, 0x00, 0x00, 0x00];

// The numbers of control registers.
const MEPC: u16 = 0x341;

const MCAUSE: u16 = 0x342;

const MCYCLE: u16 = 0xb00;

const MINSTRET: u16 = 0xb02;

/// A machine of 1 MiB with a raw firmware.
fn started(alloc: Global, firmware: &[u8], budget: u64) -> Result<Machine, Fail>
    requires { budget ≤ 2 ^ 40 }
{
    let config = Config {
        shift: 0,
        ram_mib: 1,
        slice: 10_000,
        budget,
        disk_len: 0,
    };
    let firmware = load(alloc, firmware, 1)?;
    let machine = Machine::reset(alloc, &config, &firmware)?;
    Ok(machine)
}

// A test is proved line by line with all that it knows, so each keeps to values: a machine is made,
// run and read in functions that promise nothing of what they give.

fn run<L: Ledger>(machine: &mut Machine, limit: u32, steps: &mut Steps<L>) -> Result<u32, Fail> {
    Ok(machine.run(limit, steps)?)
}

fn accept(machine: &mut Machine, event: &Event) -> Result<(), AcceptError>
    requires { IsEvent event.now }
{
    machine.accept(event, &[])
}

fn due(machine: &Machine) -> Due {
    machine.due()
}

fn peek(machine: &Machine, at: u32) -> Option<u8> {
    machine.peek(at)
}

fn printed(machine: &mut Machine) -> Vec<u8> {
    machine.take_out()
}

fn share(machine: &Machine) -> Result<Machine, Fail> {
    Ok(machine.share()?)
}

/// How many turns were made, where the next one is, and whether the machine waits in any way.
fn place(machine: &Machine) -> (u64, u32, bool) {
    (
        machine.count(),
        machine.pc(),
        machine.window() || machine.idle(),
    )
}

fn control_register(machine: &Machine, at: u16) -> Result<u32, Illegal> {
    let inputs = machine.devices.inputs();
    machine.hart.csrs.read(at, Mode::M, &inputs)
}

/// Runs the first guest from reset to its end.
fn print<L: Ledger>(rt: &impl Abort, alloc: Global, blank: Blank) -> Result<(), Fail>
    requires name { blank.name ≡ L.name }
    requires parts { blank.parts ≡ L.parts }
    requires some { 0 < L.parts }
{
    let mut steps: Steps<L> = Steps::open(blank);
    let mut machine = started(alloc, &PRINTS_A, 100)?;
    assert_eq!(rt; peek(&machine, 0x8000_0000), Some(0xb7));
    assert_eq!(rt; machine.deadline(), None);
    assert_eq!(rt; run(&mut machine, 1000, &mut steps)?, 7);
    assert_eq!(rt; place(&machine), (7, 0x8000_001c, false));
    ends(rt, machine)
}

/// Asserts that a machine takes no other event than its end, and printed the letter.
fn ends(rt: &impl Abort, mut machine: Machine) -> Result<(), Fail> {
    let end = Due::End { reason: 0, code: 0 };
    assert_eq!(rt; due(&machine), end);
    let other = Event::End { reason: 0, code: 1 };
    assert_eq!(rt; accept(&mut machine, &other), Err(AcceptError::Wrong(end)));
    let mut copy = share(&machine)?;
    assert_eq!(rt;
        accept(&mut machine, &Event::End { reason: 0, code: 0 }),
        Ok(())
    );
    assert_eq!(rt; machine.ended(), Some(Ending { reason: 0, code: 0 }));
    assert_eq!(rt; due(&machine), Due::Nothing);
    assert_eq!(rt; printed(&mut machine).as_slice(), b"A".as_slice());
    assert_eq!(rt; printed(&mut copy).as_slice(), b"A".as_slice());
    Ok(())
}

#[test]
fn a_guest_prints_a_letter_and_ends(rt: HostRuntime) -> Result<(), Fail> {
    print::<Brand>(&rt, rt.alloc(), Blank::new(1))
}

/// Asserts that a control register has this word.
fn has(rt: &impl Abort, machine: &Machine, at: u16, word: u32) {
    assert_eq!(rt; control_register(machine, at), Ok(word), "of {at:x}");
}

/// Lets the second guest trap, and then fetch where no RAM is.
fn call<L: Ledger>(rt: &impl Abort, alloc: Global, blank: Blank) -> Result<(), Fail>
    requires name { blank.name ≡ L.name }
    requires parts { blank.parts ≡ L.parts }
    requires some { 0 < L.parts }
{
    let mut steps: Steps<L> = Steps::open(blank);
    let mut machine = started(alloc, &CALLS, 2)?;
    assert_eq!(rt; run(&mut machine, 1000, &mut steps)?, 1);
    assert_eq!(rt; machine.count(), 1);
    assert_eq!(rt; due(&machine), Due::Exception);
    has(rt, &machine, MEPC, 0x8000_0000);
    assert_eq!(rt; accept(&mut machine, &Event::Exception), Ok(()));
    assert_eq!(rt; due(&machine), Due::Run);
    assert_eq!(rt; run(&mut machine, 1, &mut steps)?, 1);
    assert_eq!(rt; accept(&mut machine, &Event::Exception), Ok(()));
    assert_eq!(rt; due(&machine), Due::End { reason: 2, code: 0 });
    has(rt, &machine, MCAUSE, 1);
    has(rt, &machine, MEPC, 0);
    has(rt, &machine, MCYCLE, 2);
    has(rt, &machine, MINSTRET, 0);
    Ok(())
}

#[test]
fn a_trap_is_marked_and_the_budget_ends_the_run(rt: HostRuntime) -> Result<(), Fail> {
    call::<Brand>(&rt, rt.alloc(), Blank::new(1))
}
