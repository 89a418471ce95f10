//! The machine: its hart, its devices, and what it counts and waits for.

ghost use Rattle.std.specs.Prelude.{◌≡◌, ◌≤◌, ◌^◌, length, IfOk};
ghost use Rattle.elf_load.specs.Load.{LiesInRam};
ghost use Rattle.board.specs.Reset.{reset as reset_of, IsConfig};
ghost use Rattle.board.specs.Close.{deadline as deadline_of};
ghost use Rattle.board.specs.Due.{due as due_of, has_in_flight};
ghost use Rattle.board.specs.Taken.{without_out};
ghost use Rattle.board.specs.Bounds.{IsDue, Counts};
ghost use Rattle.board.specs.Answers.{peeked};
ghost use Rattle.board.specs.Accept.{is_open};

use crate::closing::{closed, deadline};
use crate::config::Config;
use crate::control::{Control, Ending, Window};
use crate::deciding::due_by;
use crate::due::Due;
use crate::firmware::ram_with;
use crate::pending::{interrupt_at, needs_clock};
use clint_rtc::{Clint, Finisher, Rtc};
use elf_load::Loaded;
use outside::NoMemory;
use plic_gate::Plic;
use rv_csr::{Csrs, Mode};
use rv_decode::DecodeCache;
use rv_exec::{Hart, Regs};
use std::alloc::Global;
use std::marker::Model;
use system_bus::{Console, Devices, Memory, Time};

/// The machine, which contracts see as its state.
#[derive(Drop)]
pub struct Machine {
    pub(crate) hart: Hart,
    pub(crate) devices: Devices,
    pub(crate) control: Control,
    /// What the last words meant. It only saves time and is no part of the state.
    pub(crate) cache: DecodeCache,
}

impl Model for Machine {
    ghost use Rattle.board.specs.State.{State as Shown};
    ghost use Rattle.board.specs.Bounds.{Counts};

    ghost Value = { Shown };

    ghost view = { λ m. record { hart = m.hart; devices = m.devices; control = m.control } };

    ghost invariant = { λ m. Counts m.control m.devices.time };
}

impl Machine {
    /// The machine at its start, with the firmware's pieces copied in, in their order.
    #[tactic(auto, unfolding(crate::specs::Reset::reset))]
    pub fn reset(alloc: Global, config: &Config, firmware: &Loaded) -> Result<Machine, NoMemory>
        requires config { IsConfig config.now }
        requires firmware { LiesInRam config.now.ram_mib firmware.now }
        ensures { IfOk result (λ m. m ≡ reset_of config.now firmware.now) }
    {
        let ram = ram_with(alloc, config.ram_mib, firmware.pieces.as_slice())?;
        Ok(Machine {
            hart: Hart {
                pc: firmware.entry,
                x: Regs::new(),
                mode: Mode::M,
                csrs: Csrs::new(),
                reservation: None,
            },
            devices: Devices {
                ram: Memory { ram },
                uart: Console::new(alloc),
                clint: Clint::new(),
                plic: Plic::new(),
                rtc: Rtc::new(),
                finisher: Finisher::new(),
                time: Time::new(config.shift),
            },
            control: Control {
                since: 0,
                trapped: false,
                idle: false,
                window: Window::Shut,
                ended: None,
                slice: config.slice,
                budget: config.budget,
            },
            cache: DecodeCache::new(alloc),
        })
    }

    /// What is due, of the state with its window closed. While nothing is in flight it isn't
    /// `Wait`.
    #[tactic(auto, unfolding(crate::specs::Due::due, crate::specs::Due::due_closed, crate::specs::Due::needs_clock))]
    pub fn due(&self) -> Due
        ensures due { result ≡ due_of self.now }
        ensures kind { IsDue self.now.control (has_in_flight self.now.devices) result }
        ensures counts { Counts self.now.control self.now.devices.time }
    {
        let (control, time) = closed(&self.hart, &self.devices, &self.control);
        due_by(
            &control,
            time.count(),
            self.devices.finisher.ended(),
            false,
            interrupt_at(&self.hart, &self.devices, &time).is_some(),
            needs_clock(&self.hart, &self.devices, &time),
        )
    }

    /// How the run ended.
    pub fn ended(&self) -> Option<Ending>
        ensures { result ≡ self.now.control.ended }
    {
        self.control.ended
    }

    /// How many turns were made.
    pub fn count(&self) -> u64
        ensures count { result ≡ self.now.devices.time.count }
        ensures few { result ≤ 2 ^ 40 }
    {
        self.devices.time.count()
    }

    /// Where the next instruction lies.
    pub fn pc(&self) -> u32
        ensures { result ≡ self.now.hart.pc }
    {
        self.hart.pc
    }

    /// Whether a window is open.
    pub fn window(&self) -> bool
        ensures { result ≡ is_open self.now.control.window }
    {
        self.control.window != Window::Shut
    }

    /// Whether the hart waits for an interrupt.
    pub fn idle(&self) -> bool
        ensures { result ≡ self.now.control.idle }
    {
        self.control.idle
    }

    /// The nanosecond at which the timer will wake the hart.
    pub fn deadline(&self) -> Option<u64>
        ensures { result ≡ deadline_of self.now.hart self.now.devices }
    {
        deadline(&self.hart, &self.devices)
    }

    /// The byte of RAM at an address, None exactly outside RAM.
    pub fn peek(&self, at: u32) -> Option<u8>
        ensures { result ≡ peeked self.now.devices.ram at }
    {
        match self.devices.ram.read(at, 1) {
            Some(byte) => Some(byte as u8),
            None => None,
        }
    }

    /// The console bytes that weren't taken yet.
    pub fn take_out(&mut self) -> Vec<u8>
        ensures bytes { result.items ≡ self.old.devices.uart.out }
        ensures rest { self.new ≡ without_out self.old }
    {
        self.devices.uart.take_out()
    }

    /// How many console bytes weren't taken yet.
    pub fn untaken(&self) -> usize
        ensures { result ≡ length self.now.devices.uart.out }
    {
        self.devices.uart.untaken()
    }

    /// A machine in the same state. Later changes of one don't show in the other.
    pub fn share(&self) -> Result<Machine, NoMemory>
        ensures { IfOk result (λ m. m ≡ self.now) }
    {
        Ok(Machine {
            hart: self.hart,
            devices: self.devices.share()?,
            control: self.control,
            cache: self.cache.fresh(),
        })
    }
}
