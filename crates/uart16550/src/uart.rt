//! The UART.

ghost use Rattle.std.specs.Prelude.{◌≡◌, ◌<◌, ◌≤◌, ◌+◌, ◌-◌, ◌^◌, ◌++◌, [], length, IfOk, OnOk, OnErr, vec_len};
ghost use Rattle.std.specs.VecDeque.{deque_len, deque_capacity};
ghost use Rattle.uart16550.specs.Line.{reset, cause, level, with_enabled, controlled, received};
ghost use Rattle.uart16550.specs.Map.{identified, line_status, shown, read, put, written};

use crate::fifo_control::FifoControl;
use crate::interrupt_enable::InterruptEnable;
use crate::line_control::LineControl;
use crate::register::Register;
use bitflags::Flags;
use std::alloc::{AllocError, Global};
use std::collections::VecDeque;
use std::marker::Model;

/// Want of memory.
pub type NoMemory = AllocError;

// Identifications of an interrupt (16550 data sheet, Interrupt Identification Register).
const NOTHING: u8 = 0x01;

const TRANSMITTER_EMPTY: u8 = 0x02;

const DATA_AVAILABLE: u8 = 0x04;
/// The FIFOs are on.
const FIFOS_ENABLED: u8 = 0xc0;

// Bits of the Line Status Register.
const DATA_READY: u8 = 0x01;
/// Both the holding register and the transmitter are empty.
const ALL_SENT: u8 = 0x60;

/// A carrier, a data set that is ready, and clear to send (Modem Status Register).
const PEER_READY: u8 = 0xb0;

// The bits that the Interrupt Enable Register and the Modem Control Register keep.
const IER_BITS: u8 = 0x0f;

const MCR_BITS: u8 = 0x1f;

/// The interrupt that the UART asks for.
#[derive(Clone, Copy, Debug)]
enum Cause {
    /// Bytes wait.
    Received,
    /// The transmitter became empty.
    Emptied,
    Nothing,
}

/// The registers, the bytes that wait and the bytes that were written out and not yet taken.
#[derive(Drop)]
pub struct Uart {
    ier: InterruptEnable,
    lcr: LineControl,
    mcr: u8,
    scr: u8,
    dll: u8,
    dlm: u8,
    fifos: bool,
    emptied: bool,
    waiting: VecDeque<u8>,
    out: Vec<u8>,
    total_out: u64,
}

impl Model for Uart {
    ghost use Rattle.std.specs.Prelude.{◌-◌, vec_len};
    ghost use Rattle.std.specs.Vec.{vec_capacity};
    ghost use Rattle.uart16550.specs.Line.{Port};

    ghost Value = { Port };

    ghost view = { λ u. record {
      line = record {
        ier = u.ier.0;
        lcr = u.lcr.0;
        mcr = u.mcr;
        scr = u.scr;
        dll = u.dll;
        dlm = u.dlm;
        fifos = u.fifos;
        emptied = u.emptied;
        waiting = u.waiting.items;
        out = u.out.items;
        total_out = u.total_out;
      };
      room = vec_capacity u.out - vec_len u.out;
    } };
}

impl Uart {
    /// All registers are 0, and nothing waits.
    pub fn new(alloc: Global) -> Uart
        ensures { result.line ≡ reset }
    {
        Uart {
            ier: InterruptEnable::from_bits_retain(0),
            lcr: LineControl::from_bits_retain(0),
            mcr: 0,
            scr: 0,
            dll: 0,
            dlm: 0,
            fifos: false,
            emptied: false,
            waiting: VecDeque::new(alloc),
            out: Vec::new(alloc),
            total_out: 0,
        }
    }

    /// The interrupt that is asked for: bytes that wait go before an empty transmitter.
    fn cause(&self) -> Cause
        ensures { result ≡ cause self.now.line }
    {
        if !self.waiting.is_empty() && self.ier.contains(InterruptEnable::RECEIVED) {
            Cause::Received
        } else if self.emptied && self.ier.contains(InterruptEnable::EMPTIED) {
            Cause::Emptied
        } else {
            Cause::Nothing
        }
    }

    /// The interrupt level.
    pub fn irq(&self) -> bool
        ensures { result ≡ level self.now.line }
    {
        match self.cause() {
            Cause::Received | Cause::Emptied => true,
            Cause::Nothing => false,
        }
    }

    /// The interrupt identification.
    fn identified(&self) -> u8
        ensures { result ≡ identified self.now.line }
    {
        let cause = match self.cause() {
            Cause::Received => DATA_AVAILABLE,
            Cause::Emptied => TRANSMITTER_EMPTY,
            Cause::Nothing => NOTHING,
        };
        if self.fifos {
            FIFOS_ENABLED + cause
        } else {
            cause
        }
    }

    /// The state of the line.
    fn line_status(&self) -> u8
        ensures { result ≡ line_status self.now.line }
    {
        if self.waiting.is_empty() {
            ALL_SENT
        } else {
            ALL_SENT + DATA_READY
        }
    }

    /// What a register shows.
    fn shown(&self, register: Register) -> u8
        ensures { result ≡ shown self.now.line register }
    {
        match register {
            Register::RbrThr => self.waiting.front().copied().unwrap_or(0),
            Register::Ier => self.ier.bits(),
            Register::IirFcr => self.identified(),
            Register::Lcr => self.lcr.bits(),
            Register::Mcr => self.mcr,
            Register::Lsr => self.line_status(),
            Register::Msr => PEER_READY,
            Register::Scr => self.scr,
            Register::Dll => self.dll,
            Register::Dlm => self.dlm,
        }
    }

    /// Reads the register at this offset, which takes the first byte that waits, or clears the
    /// mark of an empty transmitter that it shows.
    pub fn read(&mut self, off: u32) -> u8
        ensures read { read self.old.line off ≡ (result, self.new.line) }
        ensures room { self.new.room ≡ self.old.room }
    {
        let dlab = self.lcr.contains(LineControl::DIVISOR_LATCH);
        let register = match Register::at(off, dlab) {
            Some(register) => register,
            None => return 0,
        };
        let shown = self.shown(register);
        match register {
            Register::RbrThr => {
                let _ = self.waiting.pop_front();
            }
            Register::IirFcr => {
                if let Cause::Emptied = self.cause() {
                    self.emptied = false;
                }
            }
            _ => {}
        }
        shown
    }

    /// Makes one spare place for output.
    pub fn reserve_out(&mut self) -> Result<(), NoMemory>
        ensures line { self.new.line ≡ self.old.line }
        ensures ok { OnOk result (0 < self.new.room) }
    {
        self.out.reserve(1)
    }

    /// Sets which interrupts are enabled. The empty transmitter's is marked where it turns on.
    fn enable(&mut self, enabled: InterruptEnable)
        ensures line { self.new.line ≡ with_enabled self.old.line enabled.0 }
        ensures room { self.new.room ≡ self.old.room }
    {
        if enabled.contains(InterruptEnable::EMPTIED)
            && !self.ier.contains(InterruptEnable::EMPTIED)
        {
            self.emptied = true;
        }
        self.ier = enabled;
    }

    /// Turns the FIFOs on or off, which drops nothing, or drops the bytes that wait.
    fn control(&mut self, asked: FifoControl)
        ensures line { self.new.line ≡ controlled self.old.line asked.0 }
        ensures room { self.new.room ≡ self.old.room }
    {
        self.fifos = asked.contains(FifoControl::ENABLE);
        if asked.contains(FifoControl::CLEAR_RECEIVER) {
            self.waiting.clear();
        }
    }

    /// Puts a byte into a register.
    fn put(&mut self, register: Register, byte: u8)
        requires { register ≡ Register.RbrThr → 0 < self.old.room }
        ensures { self.new.line ≡ put self.old.line byte register }
    {
        match register {
            Register::RbrThr => {
                self.out.push_reserved(byte);
                self.total_out = self.total_out.saturating_add(1);
                self.emptied = true;
            }
            Register::Ier => self.enable(InterruptEnable::from_bits_retain(byte & IER_BITS)),
            Register::IirFcr => self.control(FifoControl::from_bits_retain(byte)),
            Register::Lcr => self.lcr = LineControl::from_bits_retain(byte),
            Register::Mcr => self.mcr = byte & MCR_BITS,
            Register::Lsr | Register::Msr => {}
            Register::Scr => self.scr = byte,
            Register::Dll => self.dll = byte,
            Register::Dlm => self.dlm = byte,
        }
    }

    /// Writes the register at this offset. The transmitter's alone, at 0, needs room.
    pub fn write(&mut self, off: u32, byte: u8)
        requires { off ≡ 0 → 0 < self.old.room }
        ensures { self.new.line ≡ written self.old.line off byte }
    {
        let dlab = self.lcr.contains(LineControl::DIVISOR_LATCH);
        if let Some(register) = Register::at(off, dlab) {
            self.put(register, byte);
        }
    }

    /// Adds to the bytes that wait.
    pub fn receive(&mut self, bytes: &[u8]) -> Result<(), NoMemory>
        ensures ok { OnOk result (self.new.line ≡ received self.old.line bytes.now) }
        ensures err { OnErr result (self.new.line ≡ self.old.line) }
        ensures room { self.new.room ≡ self.old.room }
    {
        append(&mut self.waiting, bytes)
    }

    /// How many bytes wait.
    pub fn waiting(&self) -> usize
        ensures { result ≡ length self.now.line.waiting }
    {
        self.waiting.len()
    }

    /// The output since the last take.
    pub fn take_out(&mut self) -> Vec<u8>
        ensures bytes { result.items ≡ self.old.line.out }
        ensures line { self.new.line ≡ record self.old.line { out = [] } }
    {
        let alloc = *self.out.allocator();
        std::mem::replace(&mut self.out, Vec::new(alloc))
    }

    /// How many bytes of output weren't taken yet.
    pub fn untaken(&self) -> usize
        ensures { result ≡ length self.now.line.out }
    {
        self.out.len()
    }

    /// How many bytes were written out, taken or not.
    pub fn total_out(&self) -> u64
        ensures { result ≡ self.now.line.total_out }
    {
        self.total_out
    }

    /// A UART in the same state. Later changes of one don't show in the other.
    pub fn share(&self) -> Result<Uart, NoMemory>
        ensures { IfOk result (λ u. u.line ≡ self.now.line) }
    {
        let waiting = self.waiting.clone()?;
        let out = self.out.clone()?;
        Ok(Uart {
            ier: self.ier,
            lcr: self.lcr,
            mcr: self.mcr,
            scr: self.scr,
            dll: self.dll,
            dlm: self.dlm,
            fifos: self.fifos,
            emptied: self.emptied,
            waiting,
            out,
            total_out: self.total_out,
        })
    }
}

/// Adds bytes at the end of a queue, all or none.
fn append(queue: &mut VecDeque<u8>, bytes: &[u8]) -> Result<(), NoMemory>
    ensures ok { OnOk result (queue.new.items ≡ queue.old.items ++ bytes.now) }
    ensures err { OnErr result (queue.new.items ≡ queue.old.items) }
{
    queue.reserve(bytes.len())?;
    for byte in bytes {
        queue.push_back_reserved(*byte);
    }
    Ok(())
}
