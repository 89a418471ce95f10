//! The virtual clock.

ghost use Rattle.std.specs.Prelude.{◌≡◌, ◌≤◌, ◌<◌, ◌+◌, ◌*◌, ◌^◌, ℕ};
ghost use Rattle.system_bus.specs.Time.{nanoseconds, later, later_by, skipped, last_deadline};

use std::marker::Model;

/// The turns made, and the nanoseconds that idle windows skipped.
#[derive(Clone, Copy, Debug)]
pub struct Time {
    count: u64,
    warp: u64,
    shift: u8,
}

impl Model for Time {
    ghost use Rattle.system_bus.specs.Time.{Time as Shown, IsTime};

    ghost Value = { Shown };

    ghost view = { λ t. record { count = t.count; warp = t.warp; shift = t.shift } };

    ghost inverse = { λ t. record { count = t.count; warp = t.warp; shift = t.shift } };

    ghost invariant = { λ t. IsTime (record { count = t.count; warp = t.warp; shift = t.shift }) };
}

impl Time {
    /// The clock at reset. A turn takes 2^shift nanoseconds.
    pub fn new(shift: u8) -> Time
        requires { shift ≤ 10 }
        ensures { result ≡ record { count = 0; warp = 0; shift = shift } }
    {
        Time {
            count: 0,
            warp: 0,
            shift,
        }
    }

    /// How many turns were made.
    pub fn count(&self) -> u64
        ensures { result ≡ self.now.count }
    {
        self.count
    }

    /// Nanoseconds that idle windows skipped.
    pub fn warp(&self) -> u64
        ensures { result ≡ self.now.warp }
    {
        self.warp
    }

    /// Nanoseconds since reset.
    pub fn nanoseconds(&self) -> u64
        ensures value { result ≡ nanoseconds self.now }
        ensures small { result < 2 ^ 63 }
    {
        (self.count << self.shift) + self.warp
    }

    /// One more turn was made.
    pub fn tick(&mut self)
        requires { self.old.count < 2 ^ 40 }
        ensures { self.new ≡ later self.old }
    {
        self.count += 1;
    }

    /// So many turns more were made.
    pub fn pass(&mut self, turns: u32)
        requires { self.old.count + turns ≤ 2 ^ 40 }
        ensures { self.new ≡ later_by turns self.old }
    {
        self.count += u64::from(turns);
    }

    /// So many turns, without the last, take less than a span of nanoseconds.
    pub fn turns_in(&self, span: u64) -> u64
        ensures { (n : ℕ) → n < result → n * 2 ^ self.now.shift < span }
    {
        if span == 0 {
            0
        } else {
            ((span - 1) >> self.shift) + 1
        }
    }

    /// Idle time is skipped, so that the clock shows `at`.
    pub fn skip_to(&mut self, at: u64)
        requires later { nanoseconds self.old ≤ at }
        requires bound { at ≤ last_deadline }
        ensures { self.new ≡ skipped self.old at }
    {
        self.warp = at - (self.count << self.shift);
    }
}
