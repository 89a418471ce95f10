//! The network device.

ghost use Rattle.std.specs.Prelude.{◌≡◌, OnOk, OnErr, IfOk, [], map, ◌≤◌, length};
ghost use Rattle.std.specs.List.{All};
ghost use Rattle.ram_pages.specs.Memory.{IsSize};
ghost use Rattle.vio_mmio.specs.Map.{written, effect_of};
ghost use Rattle.vio_mmio.specs.Registers.{has_interrupt};
ghost use Rattle.virtio_net.specs.Card.{bytes_of, new_card, net_register, notified, Receives};

use crate::NoMemory;
use crate::backlog::{self, MOST, drop_front, join};
use crate::packet::{self, Packet, is_length};
use crate::receive::{fill_next, refill};
use crate::transmit::drain;
use circular_buffer::HeapCircularBuffer;
use ram_pages::Ram;
use std::alloc::{AllocError, Global};
use std::marker::Model;
use vio_mmio::{Effect, Transport};

/// Why a packet was refused.
#[derive(Clone, Copy, Debug, PartialEq, Eq)]
pub enum NetError {
    BadLength(usize),
    NoMemory,
}

/// The device.
#[derive(Drop)]
pub struct Net {
    transport: Transport,
    backlog: HeapCircularBuffer<Packet>,
    sent: Vec<Packet>,
}

impl Model for Net {
    ghost use Rattle.std.specs.Prelude.{map};
    ghost use Rattle.virtio_net.specs.Card.{Card, IsSound, bytes_of};

    ghost Value = { Card };

    ghost view = { λ n. record {
      transport = n.transport;
      backlog = map bytes_of n.backlog.items;
      sent = map bytes_of n.sent.items;
    } };

    ghost invariant = { λ n. IsSound n.backlog.items n.backlog.capacity };
}

/// The device ID of a network card (virtio 1.2, 5).
const NETWORK_CARD: u32 = 1;

/// The feature that is offered: VERSION_1 (6).
const FEATURES: u64 = 1 << 32;

impl Net {
    /// The device before any packet.
    pub fn new(alloc: Global) -> Result<Net, NoMemory>
        ensures { IfOk result (λ net. net ≡ new_card) }
    {
        let backlog = HeapCircularBuffer::with_capacity(alloc, MOST)?;
        Ok(Net {
            transport: Transport::new(NETWORK_CARD, 2, FEATURES),
            backlog,
            sent: Vec::new(alloc),
        })
    }

    /// The value of a register. The device has no configuration from 0x100 on.
    pub fn read(&self, off: u32, size: u32) -> u32
        requires { IsSize size }
        ensures { result ≡ net_register self.now.transport off }
    {
        let _any = size;
        if off < 0x100 {
            self.transport.read(off)
        } else {
            0
        }
    }

    /// Writes a register.
    pub fn write(&mut self, off: u32, value: u32) -> Effect
        ensures after { self.new
            ≡ record self.old { transport = written self.old.transport off value } }
        ensures effect { result ≡ effect_of off value }
    {
        self.transport.write(off, value)
    }

    /// Whether the device asks for an interrupt.
    pub fn irq(&self) -> bool
        ensures { result ≡ has_interrupt self.now.transport }
    {
        self.transport.irq()
    }

    /// Forgets the packets that wait.
    pub fn reset(&mut self)
        ensures { self.new ≡ record self.old { backlog = [] } }
    {
        let all = self.backlog.len();
        drop_front(&mut self.backlog, all);
    }

    /// Takes a packet in: it fills the next receive chain, also while others wait, or joins the
    /// backlog, or is dropped. An `Err` leaves all as it was.
    pub fn receive(&mut self, alloc: Global, packet: &[u8], ram: &mut Ram) -> Result<(), NetError>
        ensures { Receives self.old self.new ram.old ram.new packet.now result }
    {
        if !is_length(packet.len()) {
            return Err(NetError::BadLength(packet.len()));
        }
        let mut transport = self.transport;
        let mut draft = ram.draft();
        if transport.live(0) {
            match fill_next(alloc, &mut transport, &mut draft, packet) {
                Ok(true) => {
                    let changes = draft.finish();
                    ram.commit(changes);
                    self.transport = transport;
                    return Ok(());
                }
                Ok(false) => (),
                Err(_) => return Err(NetError::NoMemory),
            }
        }
        match join(alloc, &mut self.backlog, packet) {
            Ok(()) => {
                let changes = draft.finish();
                ram.commit(changes);
                self.transport = transport;
                Ok(())
            }
            Err(_) => Err(NetError::NoMemory),
        }
    }

    /// The backlog fills receive chains. An `Err` leaves all as it was.
    fn refill(&mut self, alloc: Global, ram: &mut Ram) -> Result<(), NoMemory>
        ensures ok { OnOk result
            (record { card = self.new; ram = ram.new } ≡ notified self.old ram.old 0) }
        ensures err { OnErr result ((self.new ≡ self.old) × (ram.new ≡ ram.old)) }
    {
        let mut transport = self.transport;
        let mut draft = ram.draft();
        let size = transport.queue_size(0);
        let Ok(gone) = refill(alloc, &mut transport, &mut draft, &self.backlog, size) else {
            return Err(AllocError);
        };
        drop_front(&mut self.backlog, gone);
        self.transport = transport;
        let changes = draft.finish();
        ram.commit(changes);
        Ok(())
    }

    /// Transmit chains are sent. An `Err` leaves all as it was.
    fn drain(&mut self, alloc: Global, ram: &mut Ram) -> Result<(), NoMemory>
        ensures ok { OnOk result
            (record { card = self.new; ram = ram.new } ≡ notified self.old ram.old 1) }
        ensures err { OnErr result ((self.new ≡ self.old) × (ram.new ≡ ram.old)) }
    {
        let mut transport = self.transport;
        let mut draft = ram.draft();
        let size = transport.queue_size(1);
        let before = self.sent.as_slice().len();
        match drain(alloc, &mut transport, &mut draft, size, &mut self.sent) {
            Ok(()) => {
                self.transport = transport;
                let changes = draft.finish();
                ram.commit(changes);
                Ok(())
            }
            Err(_) => {
                self.sent.truncate(before);
                Err(AllocError)
            }
        }
    }

    /// Looks at a queue: waiting packets fill receive chains, transmit chains are sent. An `Err`
    /// leaves all as it was.
    pub fn notify(&mut self, alloc: Global, q: u32, ram: &mut Ram) -> Result<(), NoMemory>
        ensures ok { OnOk result
            (record { card = self.new; ram = ram.new } ≡ notified self.old ram.old q) }
        ensures err { OnErr result ((self.new ≡ self.old) × (ram.new ≡ ram.old)) }
    {
        match q {
            0 => self.refill(alloc, ram),
            1 => self.drain(alloc, ram),
            _ => Ok(()),
        }
    }

    /// The packets sent since the last take.
    pub fn take_sent(&mut self, alloc: Global) -> Vec<Packet>
        ensures sent { map bytes_of result.items ≡ self.old.sent }
        ensures after { self.new ≡ record self.old { sent = [] } }
    {
        std::mem::replace(&mut self.sent, Vec::new(alloc))
    }

    /// The same device once more. Later changes of one don't show in the other.
    pub fn share(&self, alloc: Global) -> Result<Net, NoMemory>
        ensures { IfOk result (λ copy. copy ≡ self.now) }
    {
        let backlog = backlog::shared(alloc, &self.backlog)?;
        let sent = packet::shared(alloc, self.sent.as_slice())?;
        Ok(Net {
            transport: self.transport,
            backlog,
            sent,
        })
    }
}
