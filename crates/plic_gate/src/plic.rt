//! The controller, after the RISC-V PLIC specification.

ghost use Rattle.std.specs.Prelude.{◌≡◌, ◌<◌, ◌≤◌};
ghost use Rattle.plic_gate.specs.Gateway.{reset, priority, forwarded, with_level, completed};
ghost use Rattle.plic_gate.specs.Claim.{asks, better, best, claimed, stands};
ghost use Rattle.plic_gate.specs.Map.{shown, put, read, written, NamesSource};

use crate::bits::{has, with_bit, without_bit};
use crate::register::Register;
use std::marker::Model;

/// How many numbers of sources there are. The number 0 is that of no source.
const SOURCES: u32 = 32;

/// How many priorities there are, 0 among them, with which a source never interrupts.
const PRIORITIES: u32 = 8;

/// The enable bits of the sources 1 to 31.
const ENABLE_BITS: u32 = 0xffff_fffe;

/// The sources with their gateways, and the registers of the one context.
#[derive(Clone, Copy, Debug)]
pub struct Plic {
    priority: [u8; SOURCES as usize],
    level: u32,
    pending: u32,
    claimed: u32,
    enabled: u32,
    threshold: u8,
}

impl Model for Plic {
    ghost use Rattle.plic_gate.specs.Gateway.{Gates};

    ghost Value = { Gates };

    ghost view = { λ p. record {
      priority = p.priority;
      level = p.level;
      pending = p.pending;
      claimed = p.claimed;
      enabled = p.enabled;
      threshold = p.threshold;
    } };

    ghost inverse = { λ g. record {
      priority = g.priority;
      level = g.level;
      pending = g.pending;
      claimed = g.claimed;
      enabled = g.enabled;
      threshold = g.threshold;
    } };
}

impl Plic {
    /// All is 0: each level is low and each gateway open.
    pub fn new() -> Plic
        ensures { result ≡ reset }
    {
        Plic {
            priority: [0; SOURCES as usize],
            level: 0,
            pending: 0,
            claimed: 0,
            enabled: 0,
            threshold: 0,
        }
    }

    /// A source whose level is high and whose gateway is open becomes pending ("Interrupt Gateways").
    fn forward(&mut self, source: u32)
        requires { source < 32 }
        ensures { self.new ≡ forwarded self.old source }
    {
        let open = !has(self.pending, source) && !has(self.claimed, source);
        if has(self.level, source) && open {
            self.pending = with_bit(self.pending, source);
        }
    }

    /// Sets the level of a source. Pending stays when the level falls.
    #[tactic(auto, using(crate::proofs::Words::cleared_same))]
    pub fn set_level(&mut self, source: u32, high: bool)
        requires some { 1 ≤ source }
        requires few { source ≤ 31 }
        ensures { self.new ≡ with_level self.old source high }
    {
        if high {
            self.level = with_bit(self.level, source);
            self.forward(source);
        } else {
            self.level = without_bit(self.level, source);
        }
    }

    /// The priority with which a source asks, 0 where it doesn't.
    fn asks(&self, source: u32) -> u8
        requires { source < 32 }
        ensures { result ≡ asks self.now source }
    {
        if source > 0 && has(self.pending, source) && has(self.enabled, source) {
            self.priority[source as usize]
        } else {
            0
        }
    }

    /// The better of two sources: the second where it asks with the higher priority.
    fn better(&self, one: u32, other: u32) -> u32
        requires one { one < 32 }
        requires other { other < 32 }
        ensures better { result ≡ better (asks self.now) one other }
        ensures source { result < 32 }
    {
        if self.asks(one) < self.asks(other) {
            other
        } else {
            one
        }
    }

    /// The source that asks with the highest priority, the lowest number at a tie, or 0.
    #[tactic(auto, using(crate::proofs::Scan::scan_none, crate::proofs::Scan::scan_next))]
    fn best(&self) -> u32
        ensures best { result ≡ best self.now }
        ensures source { result < 32 }
    {
        let mut best = 0;
        for source in 0..SOURCES {
            best = self.better(best, source);
        }
        best
    }

    /// Claims the best source, which is pending no more, or answers 0 ("Interrupt Claim Process").
    /// The threshold plays no part.
    pub fn claim(&mut self) -> u32
        ensures source { result ≡ best self.old }
        ensures gates { self.new ≡ claimed self.old }
    {
        let source = self.best();
        if source != 0 {
            self.pending = without_bit(self.pending, source);
            self.claimed = with_bit(self.claimed, source);
        }
        source
    }

    /// Completes a source that is enabled and claimed, which opens its gateway ("Interrupt
    /// Completion"). Any other completion does nothing.
    pub fn complete(&mut self, source: u32)
        ensures { self.new ≡ completed self.old source }
    {
        if source < SOURCES && has(self.enabled, source) && has(self.claimed, source) {
            self.claimed = without_bit(self.claimed, source);
            self.forward(source);
        }
    }

    /// Whether the external interrupt stands ("Priority Thresholds"). It is asked before each turn,
    /// and mostly nothing is pending.
    #[tactic(auto, using(crate::proofs::Best::quiet))]
    pub fn meip(&self) -> bool
        ensures { result ≡ stands self.now }
    {
        if self.pending & self.enabled == 0 {
            return false;
        }
        self.threshold < self.asks(self.best())
    }

    /// What a register shows. A claim is no showing.
    fn shown(&self, register: Register) -> u32
        requires { NamesSource register }
        ensures { result ≡ shown self.now register }
    {
        match register {
            Register::Priority(source) => u32::from(self.priority[source as usize]),
            Register::Pending => self.pending,
            Register::Enable => self.enabled,
            Register::Threshold => u32::from(self.threshold),
            Register::Claim => 0,
        }
    }

    /// Reads the word at this offset.
    pub fn read(&mut self, off: u32) -> u32
        ensures { read self.old off ≡ (result, self.new) }
    {
        match Register::at(off) {
            Some(Register::Claim) => self.claim(),
            Some(register) => self.shown(register),
            None => 0,
        }
    }

    /// Puts a word into a register.
    fn put(&mut self, register: Register, value: u32)
        requires { NamesSource register }
        ensures { self.new ≡ put self.old value register }
    {
        match register {
            Register::Priority(source) => self.priority[source as usize] = (value
                % PRIORITIES) as u8,
            Register::Pending => {}
            Register::Enable => self.enabled = value & ENABLE_BITS,
            Register::Threshold => self.threshold = (value % PRIORITIES) as u8,
            Register::Claim => self.complete(value),
        }
    }

    /// Writes the word at this offset.
    pub fn write(&mut self, off: u32, value: u32)
        ensures { self.new ≡ written self.old off value }
    {
        if let Some(register) = Register::at(off) {
            self.put(register, value);
        }
    }
}
