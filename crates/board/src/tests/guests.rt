//! Guests that use RAM, the interrupt controller, the timer and the host's clock.

ghost use Rattle.std.specs.Prelude.{◌≡◌, ◌<◌};
ghost use Rattle.event_log.specs.Spelling.{IsEvent};

use super::*;
use outside::Bytes;

/// Stores `A` twice to RAM at 80001000, and ends the run.
const STORES: [u32; 8] = [
    0x800012b7, 0x04100313, 0x00628023, 0x00628023, 0x001003b7, 0x00005337, 0x55530313, 0x0063a023,
];

/// Stores a word at the end of a page and a half at the start of the next, and prints the low byte
/// of the sum of all that it reads, after the sum was added to itself shifted right by 16 and by 8.
/// By the standard the sum is 369e0374, which becomes 369e3a12 and then 36d4d84c, so `L` is printed.
#[rattlefmt::skip]
const SUMS: [u32; 33] = [
    0x80002437, 0x123452b7, 0x67828293, // s0 is 80002000, t0 is 12345678
    0xfcf00313,                         // t1 is -49, or ffffffcf
    0xfe542e23, 0x00641023,             // sw t0, -4(s0); sh t1, 0(s0)
    0x00040503,                         // lb 0(s0) reads ffffffcf
    0x00044583, 0x00b50533,             // lbu 0(s0) reads cf
    0x00041583, 0x00b50533,             // lh 0(s0) reads ffffffcf
    0xffc42583, 0x00b50533,             // lw -4(s0) reads 12345678
    0x100425af, 0x00b50533,             // lr.w (s0) reads ffcf
    0x185425af, 0x00b50533,             // sc.w t0, (s0) gives 0
    0x180425af, 0x00b50533,             // sc.w zero, (s0) gives 1: there is no reservation
    0x006425af, 0x00b50533,             // amoadd.w t1, (s0) gives 12345678
    0x00042583, 0x00b50533,             // lw 0(s0) reads 12345647
    0x01055593, 0x00b50533, 0x00855593, 0x00b50533,
    0x100002b7, 0x00a28023,             // the low byte to the UART
    0x001002b7, 0x00005337, 0x55530313, 0x0062a023,
];

/// Enables the UART's interrupt, source 10, and waits. Its handler claims, takes the byte, prints
/// the letter 55 above the claim, and completes.
#[rattlefmt::skip]
const CLAIMS: [u32; 25] = [
    0x00000297, 0x04c28293, 0x30529073,             // mtvec
    0x0c000437, 0x0c0024b7, 0x0c200937, 0x100009b7, // the PLIC, its enables, its claims; the UART
    0x00100313, 0x02642423, 0x40000313, 0x0064a023, // priority 1, and enabled
    0x00100313, 0x006980a3,                         // IER: received data
    0x00001337, 0x80030313, 0x30431073, 0x30046073, // MEIE and MIE
    0x10500073, 0xffdff06f,                         // wfi, again and again
    0x00492503, 0x03750593, 0x0009c603, 0x00b98023, // claim, letter, byte, print
    0x00a92223, 0x30200073,                         // complete, mret
];

/// Sets the timer to 1000, and waits. Its interrupt ends the run.
const TIMER: [u32; 16] = [
    0x00000297, 0x03028293, 0x30529073, 0x02004337, 0x3e800393, 0x00732023, 0x00032223, 0x08000413,
    0x30441073, 0x30046073, 0x10500073, 0x0000006f, 0x001003b7, 0x00005337, 0x55530313, 0x0063a023,
];

/// Reads both words of the host's clock.
const CLOCK: [u32; 3] = [0x001012b7, 0x0002a503, 0x0042a583];

const END: Due = Due::End { reason: 0, code: 0 };

/// A machine of 1 MiB with a guest.
fn with_guest(alloc: Global, words: &[u32]) -> Result<Machine, Fail> {
    let mut firmware = Vec::new(alloc);
    for word in words {
        firmware.extend_from_slice(&word.to_le_bytes())?;
    }
    started(alloc, &firmware, 1000)
}

/// Asserts that so many turns come next, and then this.
fn runs<L: Ledger>(
    rt: &impl Abort,
    machine: &mut Machine,
    steps: &mut Steps<L>,
    turns: u32,
    due: Due,
) -> Result<(), Fail> {
    assert_eq!(rt; run(machine, 1000, steps)?, turns);
    assert_eq!(rt; machine.due(), due);
    Ok(())
}

/// Asserts that an event is taken.
fn takes(rt: &impl Abort, machine: &mut Machine, event: &Event)
    requires { IsEvent event.now }
{
    assert_eq!(rt; accept(machine, event), Ok(()));
}

fn store<L: Ledger>(rt: &impl Abort, alloc: Global, blank: Blank) -> Result<(), Fail>
    requires name { blank.name ≡ L.name }
    requires parts { blank.parts ≡ L.parts }
    requires some { 0 < L.parts }
{
    let mut steps: Steps<L> = Steps::open(blank);
    let mut machine = with_guest(alloc, &STORES)?;
    runs(rt, &mut machine, &mut steps, 8, END)?;
    assert_eq!(rt; peek(&machine, 0x8000_1000), Some(b'A'));
    assert_eq!(rt; peek(&machine, 0x8000_1001), Some(0));

    let mut machine = with_guest(alloc, &SUMS)?;
    runs(rt, &mut machine, &mut steps, 33, END)?;
    assert_eq!(rt; printed(&mut machine).as_slice(), b"L".as_slice());
    Ok(())
}

#[test]
fn what_guests_store_is_read(rt: HostRuntime) -> Result<(), Fail> {
    store::<Brand>(&rt, rt.alloc(), Blank::new(1))
}

/// Asserts that so many turns lead to WFI, where a byte that is typed interrupts.
fn claims<L: Ledger>(
    rt: &impl Abort,
    alloc: Global,
    machine: &mut Machine,
    steps: &mut Steps<L>,
    turns: u32,
) -> Result<(), Fail> {
    runs(rt, machine, steps, turns, Due::Idle)?;
    takes(rt, machine, &Event::Checkpoint { idle: true });
    let byte = Bytes::of(alloc, b"x")?;
    takes(rt, machine, &Event::CharRead(byte));
    assert_eq!(rt; due(machine), Due::Interrupt);
    takes(rt, machine, &Event::Interrupt);
    Ok(())
}

fn claim<L: Ledger>(rt: &impl Abort, alloc: Global, blank: Blank) -> Result<(), Fail>
    requires name { blank.name ≡ L.name }
    requires parts { blank.parts ≡ L.parts }
    requires some { 0 < L.parts }
{
    let mut steps: Steps<L> = Steps::open(blank);
    let mut machine = with_guest(alloc, &CLAIMS)?;
    // With the way back to WFI the second time has as many turns as the handler and two.
    claims(rt, alloc, &mut machine, &mut steps, 18)?;
    claims(rt, alloc, &mut machine, &mut steps, 8)?;
    runs(rt, &mut machine, &mut steps, 8, Due::Idle)?;
    assert_eq!(rt; printed(&mut machine).as_slice(), b"AA".as_slice());
    Ok(())
}

#[test]
fn each_byte_is_claimed_and_completed(rt: HostRuntime) -> Result<(), Fail> {
    claim::<Brand>(&rt, rt.alloc(), Blank::new(1))
}

/// The clock of the machine, in nanoseconds.
fn clock(machine: &Machine) -> u64 {
    machine.devices.time.nanoseconds()
}

/// The ticks that a guest reads.
fn ticks(machine: &Machine) -> u64 {
    machine.devices.inputs().time
}

/// The words of a0 and a1.
fn words(machine: &Machine) -> (u32, u32) {
    (machine.hart.x.get(10), machine.hart.x.get(11))
}

fn wait<L: Ledger>(rt: &impl Abort, alloc: Global, blank: Blank) -> Result<(), Fail>
    requires name { blank.name ≡ L.name }
    requires parts { blank.parts ≡ L.parts }
    requires some { 0 < L.parts }
{
    let mut steps: Steps<L> = Steps::open(blank);
    let mut machine = with_guest(alloc, &TIMER)?;
    runs(rt, &mut machine, &mut steps, 11, Due::Idle)?;
    takes(rt, &mut machine, &Event::Checkpoint { idle: true });
    takes(rt, &mut machine, &Event::Interrupt);
    // The clock stood at 11, and skipped 99989 to the tick 1000.
    assert_eq!(rt; clock(&machine), 100_000);
    runs(rt, &mut machine, &mut steps, 4, END)?;
    assert_eq!(rt; clock(&machine), 100_004);
    assert_eq!(rt; ticks(&machine), 1000);

    let mut machine = with_guest(alloc, &CLOCK)?;
    runs(rt, &mut machine, &mut steps, 1, Due::Clock)?;
    takes(rt, &mut machine, &Event::Clock(0x0123_4567_89ab_cdef));
    assert_eq!(rt; run(&mut machine, 2, &mut steps)?, 2);
    assert_eq!(rt; words(&machine), (0x89ab_cdef, 0x0123_4567));
    Ok(())
}

#[test]
fn both_clocks_show_what_is_due(rt: HostRuntime) -> Result<(), Fail> {
    wait::<Brand>(&rt, rt.alloc(), Blank::new(1))
}
