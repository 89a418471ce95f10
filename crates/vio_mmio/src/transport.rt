//! The registers of a virtio device over memory-mapped registers (virtio 1.2, 4.2.2).

ghost use Rattle.std.specs.Prelude.{◌≡◌, ◌<◌, ◌≤◌, true};
ghost use Rattle.vio_mmio.specs.Descriptors.{GivesNext, next_of, TakesNext, Pushes};
ghost use Rattle.vio_mmio.specs.Map.{part_of, shown, read, kept_status, features_written, status_written, put_selected, put, written, effect_of};
ghost use Rattle.vio_mmio.specs.Registers.{queue_of, with_queue, reset_of, live_of, in_need, has_interrupt};
ghost use Rattle.vio_mmio.specs.Ring.{IsPushed};

use crate::chain::{Chain, read_chain};
use crate::error::QueueError;
use crate::queue::{Queue, with_high, with_low};
use crate::register::Register;
use crate::ring::{next_head, push_entry, wants_interrupt};
use ram_pages::Draft;
use std::alloc::Global;
use std::marker::Model;

// Bits of the device status (2.1).
const DRIVER_OK: u32 = 0x04;

const FEATURES_OK: u32 = 0x08;

const DEVICE_NEEDS_RESET: u32 = 0x40;

/// The feature that every driver has to accept (6).
const VERSION_1: u64 = 1 << 32;

// Bits of InterruptStatus (4.2.2).
const USED_BUFFER: u32 = 0x1;

const CONFIGURATION_CHANGE: u32 = 0x2;

/// What MagicValue shows: "virt".
const MAGIC: u32 = 0x7472_6976;

const VENDOR: u32 = 0x4d56_5252;

/// How many descriptors a queue may have.
const QUEUE_NUM_MAX: u32 = 0x40;

/// All bits of a register.
const ALL: u32 = 0xffff_ffff;

/// What a write asks of the device.
#[derive(Clone, Copy, Debug, PartialEq, Eq)]
pub enum Effect {
    Nothing,
    /// The queue of this number is to be looked at.
    Notify(u32),
    /// The device is to forget what it holds.
    Reset,
}

/// The registers with the device's places in the rings.
#[derive(Clone, Copy, Debug)]
pub struct Transport {
    device: u32,
    queues: u32,
    features: u64,
    device_features_sel: u32,
    driver_features: u64,
    driver_features_sel: u32,
    queue_sel: u32,
    interrupt_status: u32,
    status: u32,
    first: Queue,
    second: Queue,
}

impl Model for Transport {
    ghost use Rattle.vio_mmio.specs.Registers.{Registers};

    ghost Value = { Registers };

    ghost view = { λ t. record {
      device = t.device;
      queues = t.queues;
      features = t.features;
      device_features_sel = t.device_features_sel;
      driver_features = t.driver_features;
      driver_features_sel = t.driver_features_sel;
      queue_sel = t.queue_sel;
      interrupt_status = t.interrupt_status;
      status = t.status;
      first = t.first;
      second = t.second;
    } };

    ghost inverse = { λ r. record {
      device = r.device;
      queues = r.queues;
      features = r.features;
      device_features_sel = r.device_features_sel;
      driver_features = r.driver_features;
      driver_features_sel = r.driver_features_sel;
      queue_sel = r.queue_sel;
      interrupt_status = r.interrupt_status;
      status = r.status;
      first = r.first;
      second = r.second;
    } };
}

/// The half of 64 bits that a selector shows.
fn part(x: u64, selector: u32) -> u32
    ensures { result ≡ part_of x selector }
{
    match selector {
        0 => (x % 0x1_0000_0000) as u32,
        1 => (x / 0x1_0000_0000) as u32,
        _ => 0,
    }
}

/// The driver's features after a half is written, which a selector names.
fn features(x: u64, selector: u32, value: u32) -> u64
    ensures { result ≡ features_written x selector value }
{
    match selector {
        0 => with_low(x, value),
        1 => with_high(x, value),
        _ => x,
    }
}

impl Transport {
    /// The registers at reset of a device with one or two queues, which offers these features.
    pub fn new(device: u32, queues: u32, features: u64) -> Transport
        ensures { result ≡ reset_of device queues features }
    {
        Transport {
            device,
            queues,
            features,
            device_features_sel: 0,
            driver_features: 0,
            driver_features_sel: 0,
            queue_sel: 0,
            interrupt_status: 0,
            status: 0,
            first: Queue::new(),
            second: Queue::new(),
        }
    }

    fn queue(&self, q: u32) -> Queue
        ensures { result ≡ queue_of self.now q }
    {
        if q == 0 { self.first } else { self.second }
    }

    fn set_queue(&mut self, q: u32, queue: Queue)
        ensures { self.new ≡ with_queue self.old q queue }
    {
        if q == 0 {
            self.first = queue;
        } else {
            self.second = queue;
        }
    }

    /// How many descriptors the driver gave a queue, and 0 before it does.
    pub fn queue_size(&self, q: u32) -> u32
        ensures { result ≡ (queue_of self.now q).size }
    {
        self.queue(q).size
    }

    /// What a register shows.
    fn shown(&self, register: Register) -> u32
        ensures { result ≡ shown self.now register }
    {
        match register {
            Register::MagicValue => MAGIC,
            Register::Version => 2,
            Register::DeviceId => self.device,
            Register::VendorId => VENDOR,
            Register::DeviceFeatures => part(self.features, self.device_features_sel),
            Register::QueueNumMax if self.queue_sel < self.queues => QUEUE_NUM_MAX,
            Register::QueueReady if self.queue_sel < self.queues => {
                u32::from(self.queue(self.queue_sel).ready)
            }
            Register::InterruptStatus => self.interrupt_status,
            Register::Status => self.status,
            _ => 0,
        }
    }

    /// The word at an offset.
    pub fn read(&self, off: u32) -> u32
        ensures { result ≡ read self.now off }
    {
        match Register::at(off) {
            Some(register) => self.shown(register),
            None => 0,
        }
    }

    /// Whether a queue may be used.
    pub fn live(&self, q: u32) -> bool
        ensures { result ≡ live_of self.now q }
    {
        let queue = self.queue(q);
        q < self.queues
            && queue.ready
            && queue.size != 0
            && self.status & DRIVER_OK != 0
            && self.status & DEVICE_NEEDS_RESET == 0
    }

    /// Whether the device asks for an interrupt.
    pub fn irq(&self) -> bool
        ensures { result ≡ has_interrupt self.now }
    {
        self.interrupt_status != 0
    }

    /// Asks the driver for a reset (2.1.2).
    pub fn needs_reset(&mut self)
        ensures { self.new ≡ in_need self.old }
    {
        self.status |= DEVICE_NEEDS_RESET;
        self.interrupt_status |= CONFIGURATION_CHANGE;
    }

    /// The status after a write that isn't 0.
    fn kept(&self, value: u32) -> u32
        ensures { result ≡ kept_status self.now value }
    {
        let taken = self.status & DEVICE_NEEDS_RESET | value & (DEVICE_NEEDS_RESET ^ ALL);
        let agreed = self.driver_features & self.features == self.driver_features
            && self.driver_features & VERSION_1 != 0;
        if agreed {
            taken
        } else {
            taken & (FEATURES_OK ^ ALL)
        }
    }

    /// Writes the status.
    fn put_status(&mut self, value: u32)
        ensures { self.new ≡ status_written self.old value }
    {
        if value == 0 {
            *self = Transport::new(self.device, self.queues, self.features);
        } else {
            self.status = self.kept(value);
        }
    }

    /// Puts a word into a register of the queue that is selected, if it exists.
    fn put_selected(&mut self, register: Register, value: u32)
        ensures { self.new ≡ put_selected self.old value register }
    {
        if self.queue_sel < self.queues {
            let mut queue = self.queue(self.queue_sel);
            queue.put(register, value);
            self.set_queue(self.queue_sel, queue);
        }
    }

    /// Puts a word into a register.
    fn put(&mut self, register: Register, value: u32)
        ensures { self.new ≡ put self.old value register }
    {
        match register {
            Register::DeviceFeaturesSel => self.device_features_sel = value,
            Register::DriverFeatures => {
                let selector = self.driver_features_sel;
                self.driver_features = features(self.driver_features, selector, value);
            }
            Register::DriverFeaturesSel => self.driver_features_sel = value,
            Register::QueueSel => self.queue_sel = value,
            Register::InterruptAck => self.interrupt_status &= value ^ ALL,
            Register::Status => self.put_status(value),
            Register::QueueNum
            | Register::QueueReady
            | Register::QueueDescLow
            | Register::QueueDescHigh
            | Register::QueueDriverLow
            | Register::QueueDriverHigh
            | Register::QueueDeviceLow
            | Register::QueueDeviceHigh => self.put_selected(register, value),
            _ => {}
        }
    }

    /// Writes the word at an offset.
    pub fn write(&mut self, off: u32, value: u32) -> Effect
        ensures after { self.new ≡ written self.old off value }
        ensures effect { result ≡ effect_of off value }
    {
        let Some(register) = Register::at(off) else {
            return Effect::Nothing;
        };
        self.put(register, value);
        match register {
            Register::QueueNotify => Effect::Notify(value),
            Register::Status if value == 0 => Effect::Reset,
            _ => Effect::Nothing,
        }
    }

    /// The next chain that the driver shows in a queue, if any, which is taken then. A chain that
    /// breaks a rule isn't taken.
    pub fn next_chain(
        &mut self,
        alloc: Global,
        q: u32,
        draft: &Draft<'_>,
    ) -> Result<Option<Chain>, QueueError>
        requires { live_of self.old q ≡ true }
        ensures found { GivesNext result (next_of draft.now.bytes (queue_of self.old q)) }
        ensures after { TakesNext self.old self.new q result }
    {
        let mut queue = self.queue(q);
        let head = match next_head(&queue, draft) {
            Ok(Some(head)) => head,
            Ok(None) => return Ok(None),
            Err(kind) => return Err(QueueError::Bad(kind)),
        };
        match read_chain(alloc, &queue, draft, head) {
            Ok(chain) => {
                queue.seen = queue.seen.wrapping_add(1);
                self.set_queue(q, queue);
                Ok(Some(chain))
            }
            Err(refused) => Err(refused),
        }
    }

    /// Gives a chain back as used. After `NoMemory` the draft may hold a part of the entry.
    pub fn push_used(
        &mut self,
        q: u32,
        draft: &mut Draft<'_>,
        head: u16,
        len: u32,
    ) -> Result<(), QueueError>
        requires { 0 < (queue_of self.old q).size }
        ensures before { draft.new.before ≡ draft.old.before }
        ensures entry { IsPushed draft.old.bytes draft.new.bytes (queue_of self.old q) head len result }
        ensures after { Pushes self.old self.new draft.new.bytes q result }
    {
        let mut queue = self.queue(q);
        match push_entry(&queue, draft, head, len) {
            Ok(()) => (),
            Err(refused) => return Err(refused),
        }
        let wanted = wants_interrupt(&queue, draft);
        queue.gone = queue.gone.wrapping_add(1);
        self.set_queue(q, queue);
        if wanted {
            self.interrupt_status |= USED_BUFFER;
        }
        Ok(())
    }
}
