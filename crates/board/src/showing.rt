//! The text of a machine's registers, clock and console.

ghost use Rattle.std.specs.Prelude.{◌≡◌, ◌<◌, ◌++◌, IfOk, IsSome, Some, string_bytes, codes};
ghost use Rattle.std.specs.Fmt.{decimal};
ghost use Rattle.rv_csr.specs.Table.{read_of, pending};
ghost use Rattle.rv_csr.specs.declared.mode.Mode.TheVariants.{M as MachineMode};
ghost use Rattle.system_bus.specs.Access.{inputs};
ghost use Rattle.board.specs.Show.{word_text, mode_text, after_register, register_text, registers_text};
ghost use Rattle.board.specs.Show.{interrupt_text as interrupt_text_of, trap_text as trap_text_of, clock_text as clock_text_of, console_text as console_text_of, show_text};

use crate::machine::Machine;
use outside::NoMemory;
use rv_csr::Mode;
use rv_exec::{Bus, Hart, Regs};
use std::alloc::Global;
use system_bus::{Devices, Time};

/// The numbers of the control registers that are shown.
const MSTATUS: u16 = 0x300;

const MIE: u16 = 0x304;

const MTVEC: u16 = 0x305;

const MSCRATCH: u16 = 0x340;

const MEPC: u16 = 0x341;

const MCAUSE: u16 = 0x342;

const MTVAL: u16 = 0x343;

const MIP: u16 = 0x344;

fn word(alloc: Global, n: u32) -> Result<String, NoMemory>
    ensures { IfOk result (λ s. string_bytes s ≡ word_text n) }
{
    format!(in alloc; "{n:08x}")
}

fn mode_text(mode: Mode) -> &'static str
    ensures { result.now ≡ mode_text mode }
{
    match mode {
        Mode::M => "M",
        Mode::U => "U",
    }
}

fn place_line(alloc: Global, pc: &str, mode: &str, count: u64) -> Result<String, NoMemory>
    ensures { IfOk result (λ s. string_bytes s
        ≡ codes "pc " ++ pc.now ++ codes " mode " ++ mode.now
        ++ codes " count " ++ decimal count ++ codes "\n") }
{
    format!(in alloc; "pc {pc} mode {mode} count {count}\n")
}

fn after_register(n: u8) -> &'static str
    ensures { result.now ≡ after_register n }
{
    if n % 4 == 3 { "\n" } else { " " }
}

fn named(alloc: Global, n: u8, value: &str, after: &str) -> Result<String, NoMemory>
    ensures { IfOk result (λ s. string_bytes s
        ≡ codes "x" ++ decimal n ++ codes " " ++ value.now ++ after.now) }
{
    format!(in alloc; "x{n} {value}{after}")
}

fn register(alloc: Global, x: &Regs, n: u8) -> Result<String, NoMemory>
    requires { n < 32 }
    ensures { IfOk result (λ s. string_bytes s ≡ register_text x.now n) }
{
    let value = word(alloc, x.get(n))?;
    named(alloc, n, value.as_str(), after_register(n))
}

#[tactic(auto, using(crate::proofs::RegisterTexts::shows))]
fn registers(alloc: Global, x: &Regs) -> Result<String, NoMemory>
    ensures { IfOk result (λ s. string_bytes s ≡ registers_text x.now 0 32) }
{
    let mut text = String::new(alloc);
    for n in 0u8..32 {
        let one = register(alloc, x, n)?;
        text.push_str(one.as_str())?;
    }
    Ok(text)
}

/// What machine mode reads at a control register's number.
fn control_word(hart: &Hart, devices: &Devices, number: u16) -> u32
    requires { IsSome (read_of hart.now.csrs number MachineMode (inputs devices.now)) }
    ensures { read_of hart.now.csrs number MachineMode (inputs devices.now) ≡ Some result }
{
    match hart.csrs.read(number, Mode::M, &devices.inputs()) {
        Ok(word) => word,
        Err(_) => unreachable!(),
    }
}

fn interrupt_line(
    alloc: Global,
    mstatus: &str,
    mie: &str,
    mip: &str,
    mtvec: &str,
) -> Result<String, NoMemory>
    ensures { IfOk result (λ s. string_bytes s
        ≡ codes "mstatus " ++ mstatus.now ++ codes " mie " ++ mie.now
        ++ codes " mip " ++ mip.now ++ codes " mtvec " ++ mtvec.now ++ codes "\n") }
{
    format!(in alloc; "mstatus {mstatus} mie {mie} mip {mip} mtvec {mtvec}\n")
}

fn interrupt_text(alloc: Global, hart: &Hart, devices: &Devices) -> Result<String, NoMemory>
    ensures { IfOk result (λ s. string_bytes s
        ≡ interrupt_text_of hart.now.csrs (pending (inputs devices.now))) }
{
    let mstatus = word(alloc, control_word(hart, devices, MSTATUS))?;
    let mie = word(alloc, control_word(hart, devices, MIE))?;
    let mip = word(alloc, control_word(hart, devices, MIP))?;
    let mtvec = word(alloc, control_word(hart, devices, MTVEC))?;
    interrupt_line(
        alloc,
        mstatus.as_str(),
        mie.as_str(),
        mip.as_str(),
        mtvec.as_str(),
    )
}

fn trap_line(
    alloc: Global,
    mepc: &str,
    mcause: &str,
    mtval: &str,
    mscratch: &str,
) -> Result<String, NoMemory>
    ensures { IfOk result (λ s. string_bytes s
        ≡ codes "mepc " ++ mepc.now ++ codes " mcause " ++ mcause.now
        ++ codes " mtval " ++ mtval.now ++ codes " mscratch " ++ mscratch.now ++ codes "\n") }
{
    format!(in alloc; "mepc {mepc} mcause {mcause} mtval {mtval} mscratch {mscratch}\n")
}

fn trap_text(alloc: Global, hart: &Hart, devices: &Devices) -> Result<String, NoMemory>
    ensures { IfOk result (λ s. string_bytes s ≡ trap_text_of hart.now.csrs) }
{
    let mepc = word(alloc, control_word(hart, devices, MEPC))?;
    let mcause = word(alloc, control_word(hart, devices, MCAUSE))?;
    let mtval = word(alloc, control_word(hart, devices, MTVAL))?;
    let mscratch = word(alloc, control_word(hart, devices, MSCRATCH))?;
    trap_line(
        alloc,
        mepc.as_str(),
        mcause.as_str(),
        mtval.as_str(),
        mscratch.as_str(),
    )
}

fn clock_line(alloc: Global, clock: u64, warp: u64) -> Result<String, NoMemory>
    ensures { IfOk result (λ s. string_bytes s
        ≡ codes "clock " ++ decimal clock ++ codes " warp " ++ decimal warp ++ codes "\n") }
{
    format!(in alloc; "clock {clock} warp {warp}\n")
}

fn clock_text(alloc: Global, time: &Time) -> Result<String, NoMemory>
    ensures { IfOk result (λ s. string_bytes s ≡ clock_text_of time.now) }
{
    clock_line(alloc, time.nanoseconds(), time.warp())
}

fn console_text(alloc: Global, total: u64) -> Result<String, NoMemory>
    ensures { IfOk result (λ s. string_bytes s ≡ console_text_of total) }
{
    format!(in alloc; "console {total} bytes\n")
}

impl Machine {
    /// The registers, the clock and the console's length as lines of text. Words are hexadecimal,
    /// counts and nanoseconds decimal.
    #[tactic(auto, unfolding(crate::specs::Show::show_text))]
    pub fn show(&self, alloc: Global) -> Result<String, NoMemory>
        ensures { IfOk result (λ s. string_bytes s ≡ show_text self.now) }
    {
        let pc = word(alloc, self.hart.pc)?;
        let mode = mode_text(self.hart.mode);
        let mut text = place_line(alloc, pc.as_str(), mode, self.devices.time.count())?;
        let x = registers(alloc, &self.hart.x)?;
        text.push_str(x.as_str())?;
        let interrupts = interrupt_text(alloc, &self.hart, &self.devices)?;
        text.push_str(interrupts.as_str())?;
        let trap = trap_text(alloc, &self.hart, &self.devices)?;
        text.push_str(trap.as_str())?;
        let clock = clock_text(alloc, &self.devices.time)?;
        text.push_str(clock.as_str())?;
        let console = console_text(alloc, self.devices.uart.total_out())?;
        text.push_str(console.as_str())?;
        Ok(text)
    }
}
