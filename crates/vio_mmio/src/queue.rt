//! One split queue (virtio 1.2, 2.7) and its registers.

ghost use Rattle.std.specs.Prelude.{◌≡◌};
ghost use Rattle.vio_mmio.specs.Map.{low_written, high_written, is_queue_num, queue_put};
ghost use Rattle.vio_mmio.specs.Registers.{fresh_queue};

use crate::register::Register;

/// The registers of a queue, and the device's places in its rings: how many heads were taken from
/// the available ring and how many entries were put into the used ring, modulo 2^16.
#[derive(Clone, Copy, Debug)]
pub(crate) struct Queue {
    pub size: u32,
    pub ready: bool,
    pub descriptors: u64,
    pub available: u64,
    pub used: u64,
    pub seen: u16,
    pub gone: u16,
}

/// How many numbers 32 bits have.
const WORDS: u64 = 1 << 32;

/// A number whose low half is written.
pub(crate) fn with_low(x: u64, low: u32) -> u64
    ensures { result ≡ low_written x low }
{
    x / WORDS * WORDS + u64::from(low)
}

/// A number whose high half is written.
pub(crate) fn with_high(x: u64, high: u32) -> u64
    ensures { result ≡ high_written x high }
{
    x % WORDS + u64::from(high) * WORDS
}

/// Whether a queue may be given this size.
fn is_size(n: u32) -> bool
    ensures { result ≡ is_queue_num n }
{
    n == 0x1 || n == 0x2 || n == 0x4 || n == 0x8 || n == 0x10 || n == 0x20 || n == 0x40
}

impl Queue {
    /// A queue before its driver says anything.
    pub(crate) fn new() -> Queue
        ensures { result ≡ fresh_queue }
    {
        Queue {
            size: 0,
            ready: false,
            descriptors: 0,
            available: 0,
            used: 0,
            seen: 0,
            gone: 0,
        }
    }

    /// Puts a word into a register of the queue.
    pub(crate) fn put(&mut self, register: Register, value: u32)
        ensures { self.new ≡ queue_put self.old value register }
    {
        match register {
            Register::QueueNum => {
                if is_size(value) {
                    self.size = value;
                }
            }
            Register::QueueReady => self.ready = value % 2 == 1,
            Register::QueueDescLow => self.descriptors = with_low(self.descriptors, value),
            Register::QueueDescHigh => self.descriptors = with_high(self.descriptors, value),
            Register::QueueDriverLow => self.available = with_low(self.available, value),
            Register::QueueDriverHigh => self.available = with_high(self.available, value),
            Register::QueueDeviceLow => self.used = with_low(self.used, value),
            Register::QueueDeviceHigh => self.used = with_high(self.used, value),
            _ => {}
        }
    }
}
