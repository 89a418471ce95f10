//! The block device.

ghost use Rattle.std.specs.Prelude.{◌≡◌, ◌+◌, ◌++◌, ◌<◌, ◌≤◌, ◌^◌, ◌/◌, length, drop, map, IfOk, OnErr, []};
ghost use Rattle.std.specs.Option.{option_map};
ghost use Rattle.ram_pages.specs.Memory.{IsSize};
ghost use Rattle.overlay_disk.specs.Sectors.{sector_of};
ghost use Rattle.vio_mmio.specs.Map.{written, effect_of};
ghost use Rattle.vio_mmio.specs.Registers.{has_interrupt};
ghost use Rattle.virtio_blk.specs.Completed.{BaseFits, Completes};
ghost use Rattle.virtio_blk.specs.Drive.{new_drive, request_of, flight_in, Notifies, found_in};
ghost use Rattle.virtio_blk.specs.Registers.{capacity_part, block_register};

use crate::NoMemory;
use crate::complete::{CompleteError, answer, is_refused, look, status, used, write_disk};
use crate::notify::{Parsed, place_of, shared, take_chains};
use crate::request::{Request, issue};
use overlay_disk::Overlay;
use ram_pages::Ram;
use std::alloc::{AllocError, Global};
use std::marker::Model;
use vio_mmio::{Effect, Transport};

/// The device.
#[derive(Drop)]
pub struct Block {
    transport: Transport,
    disk: Overlay,
    next: u64,
    ids: Vec<u64>,
    parsed: Vec<Parsed>,
}

impl Model for Block {
    ghost use Rattle.std.specs.Prelude.{map, ◌/◌};
    ghost use Rattle.virtio_blk.specs.Drive.{Drive, IsSound};
    ghost use Rattle.virtio_blk.specs.Notify.{flight_of};

    ghost Value = { Drive };

    ghost view = { λ b. record {
      transport = b.transport;
      disk = b.disk;
      next = b.next;
      flights = map flight_of b.parsed.items;
    } };

    ghost invariant = { λ b. IsSound b.ids.items b.parsed.items b.next (b.disk.len / 512) };
}

/// The device ID of a block device (virtio 1.2, 5).
const BLOCK_DEVICE: u32 = 2;

/// The features that are offered: VIRTIO_BLK_F_FLUSH (5.2.3) and VERSION_1 (6).
const FEATURES: u64 = 1 << 9 | 1 << 32;

/// No request is given this id or a later one. With 64 requests a turn and 2^40 turns at most, none
/// comes near.
const IDS: u64 = 1 << 63;

/// The number of some bytes of the capacity.
fn capacity(sectors: u64, place: u32, size: u32) -> u32
    requires { IsSize size }
    ensures { result ≡ capacity_part sectors place size }
{
    if place >= 8 {
        return 0;
    }
    let behind = sectors >> (8 * place);
    match size {
        1 => (behind % 0x100) as u32,
        2 => (behind % 0x1_0000) as u32,
        _ => (behind % 0x1_0000_0000) as u32,
    }
}

impl Block {
    /// The device of a disk before any request.
    pub fn new(alloc: Global, disk: Overlay) -> Block
        ensures { result ≡ new_drive disk }
    {
        Block {
            transport: Transport::new(BLOCK_DEVICE, 1, FEATURES),
            disk,
            next: 0,
            ids: Vec::new(alloc),
            parsed: Vec::new(alloc),
        }
    }

    /// The value of a register.
    pub fn read(&self, off: u32, size: u32) -> u32
        requires { IsSize size }
        ensures { result ≡ block_register self.now.transport (self.now.disk.len / 512) off size }
    {
        if off < 0x100 {
            self.transport.read(off)
        } else {
            capacity(self.disk.sectors(), off - 0x100, size)
        }
    }

    /// Writes a register.
    pub fn write(&mut self, off: u32, value: u32) -> Effect
        ensures after { self.new
            ≡ record self.old { transport = written self.old.transport off value } }
        ensures effect { result ≡ effect_of off value }
    {
        self.transport.write(off, value)
    }

    /// Whether the device asks for an interrupt.
    pub fn irq(&self) -> bool
        ensures { result ≡ has_interrupt self.now.transport }
    {
        self.transport.irq()
    }

    /// Forgets the requests in flight. The next id stays.
    pub fn reset(&mut self)
        ensures { self.new ≡ record self.old { flights = [] } }
    {
        self.ids.clear();
        self.parsed.clear();
    }

    /// The ids in flight, in order of issue.
    pub fn in_flight(&self) -> &[u64]
        ensures { result.now ≡ map (λ f. f.id) self.now.flights }
    {
        self.ids.as_slice()
    }

    /// What a worker reads for a request in flight.
    pub fn request(&self, id: u64) -> Option<Request>
        ensures { result ≡ option_map request_of (flight_in self.now.flights id) }
    {
        let parsed = self.parsed.as_slice();
        let Some(place) = place_of(parsed, id) else {
            return None;
        };
        let found = &parsed[place];
        Some(Request::of(found.id, found.kind, self.disk.sectors()))
    }

    /// Parses every chain that the driver shows. An `Err` leaves all as it was.
    pub fn notify(&mut self, alloc: Global, ram: &Ram) -> Result<Vec<Request>, NoMemory>
        ensures ok { IfOk result
            (λ requests. Notifies self.old self.new requests.items (found_in self.old ram.now)) }
        ensures err { OnErr result (self.new ≡ self.old) }
    {
        if self.next >= IDS {
            return Err(AllocError);
        }
        let mut transport = self.transport;
        if !transport.live(0) {
            return Ok(Vec::new(alloc));
        }
        let sectors = self.disk.sectors();
        let size = transport.queue_size(0);
        let before = self.parsed.as_slice().len();
        let draft = ram.draft();
        match take_chains(
            alloc,
            &mut transport,
            &draft,
            sectors,
            size,
            self.next,
            &mut self.parsed,
        ) {
            Ok(()) => (),
            Err(_) => {
                self.parsed.truncate(before);
                return Err(AllocError);
            }
        }
        let (_, fresh) = self.parsed.as_slice().split_at(before);
        match issue(alloc, fresh, sectors, &mut self.ids) {
            Ok(requests) => {
                self.next += requests.as_slice().len() as u64;
                self.transport = transport;
                Ok(requests)
            }
            Err(_) => {
                self.parsed.truncate(before);
                Err(AllocError)
            }
        }
    }

    /// Ends a request: a read copies the disk's bytes to RAM, a write copies RAM to the disk. An
    /// `Err` leaves all as it was.
    pub fn complete(
        &mut self,
        alloc: Global,
        id: u64,
        ok: bool,
        base: &[u8],
        ram: &mut Ram,
    ) -> Result<(), CompleteError>
        requires { BaseFits (option_map request_of (flight_in self.old.flights id)) ok base.now }
        ensures { Completes self.old self.new ram.old ram.new id ok base.now result }
    {
        let Some(place) = place_of(self.parsed.as_slice(), id) else {
            return Err(CompleteError::NotInFlight(id));
        };
        let all = self.parsed.as_slice();
        let parsed = &all[place];
        let kind = parsed.kind;
        if is_refused(kind, ok) {
            return Err(CompleteError::NotARead(id));
        }
        let Ok(found) = look(alloc, &self.disk, kind, ok, base) else {
            return Err(CompleteError::NoMemory);
        };
        let writable = parsed.chain.writable.as_slice();
        let mut draft = ram.draft();
        let Ok(()) = answer(&mut draft, writable, found.as_slice(), status(kind, ok)) else {
            return Err(CompleteError::NoMemory);
        };
        let mut transport = self.transport;
        let used = used(kind, ok, writable);
        let Ok(()) = transport.give_back(0, &mut draft, parsed.chain.head, used) else {
            return Err(CompleteError::NoMemory);
        };
        let Ok(()) = write_disk(alloc, &mut self.disk, ram, parsed) else {
            return Err(CompleteError::NoMemory);
        };
        let changes = draft.finish();
        ram.commit(changes);
        self.transport = transport;
        self.ids.remove(place);
        self.parsed.remove(place);
        Ok(())
    }

    /// The same device once more. Later changes of one don't show in the other.
    pub fn share(&self, alloc: Global) -> Result<Block, NoMemory>
        ensures { IfOk result (λ copy. copy ≡ self.now) }
    {
        let disk = self.disk.share()?;
        let ids = Vec::from_slice(alloc, self.ids.as_slice())?;
        let parsed = shared(alloc, self.parsed.as_slice())?;
        Ok(Block {
            transport: self.transport,
            disk,
            next: self.next,
            ids,
            parsed,
        })
    }
}
