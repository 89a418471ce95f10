//! The host's clock as the guest reads it, after the Goldfish real-time clock.

ghost use Rattle.std.specs.Prelude.{◌≡◌, Some, None};
ghost use Rattle.clint_rtc.specs.Rtc.{nothing_latched, read, Reads};

use crate::words::{high_half, low_half};
use std::marker::Model;

/// The offset of the low word, whose read takes the value.
const TIME_LOW: u32 = 0;

/// The offset of the high word of the value that was taken.
const TIME_HIGH: u32 = 4;

/// The read that needs a value of the clock, where none is in hand.
#[derive(Clone, Copy, PartialEq, Eq, Debug)]
pub struct NeedClock;

/// The clock's two words: a read of the low one takes the value in hand and latches it.
#[derive(Clone, Copy, Debug)]
pub struct Rtc {
    in_hand: Option<u64>,
    latched: u64,
}

impl Model for Rtc {
    ghost use Rattle.clint_rtc.specs.Rtc.{Latch};

    ghost Value = { Latch };

    ghost view = { λ r. record { in_hand = r.in_hand; latched = r.latched } };

    ghost inverse = { λ l. record { in_hand = l.in_hand; latched = l.latched } };
}

impl Rtc {
    /// No value is in hand, and 0 is latched.
    pub fn new() -> Rtc
        ensures { result ≡ nothing_latched }
    {
        Rtc {
            in_hand: None,
            latched: 0,
        }
    }

    /// Reads the word at this offset. Without a value in hand, a read of the low word changes nothing.
    pub fn read(&mut self, off: u32) -> Result<u32, NeedClock>
        ensures { Reads (read self.old off) self.old result self.new }
    {
        match off {
            TIME_LOW => {
                let value = self.in_hand.ok_or(NeedClock)?;
                self.in_hand = None;
                self.latched = value;
                Ok(low_half(value))
            }
            TIME_HIGH => Ok(high_half(self.latched)),
            _ => Ok(0),
        }
    }

    /// Puts a value of the clock in hand.
    pub fn give(&mut self, value: u64)
        ensures { self.new ≡ record self.old { in_hand = Some value } }
    {
        self.in_hand = Some(value);
    }

    /// The value in hand.
    pub fn in_hand(&self) -> Option<u64>
        ensures { result ≡ self.now.in_hand }
    {
        self.in_hand
    }
}
