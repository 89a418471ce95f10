//! The device by which the guest ends the run, after SiFive's test finisher.

ghost use Rattle.std.specs.Prelude.{◌≡◌, None};
ghost use Rattle.clint_rtc.specs.Finisher.{ending, written};

use std::marker::Model;

/// Ends the run with code 0.
const PASS: u32 = 0x5555;

/// In the low half of a word, ends the run with the high half as code.
const FAIL: u32 = 0x3333;

/// The code with which the guest ended, if it did. Contracts see just that.
#[derive(Clone, Copy, Debug)]
pub struct Finisher {
    code: Option<u32>,
}

impl Model for Finisher {
    ghost use Rattle.std.specs.Prelude.{ℕ, Option};

    ghost Value = { Option ℕ };

    ghost view = { λ f. f.code };

    ghost inverse = { λ code. record { code = code } };
}

impl Finisher {
    /// The guest runs.
    pub fn new() -> Finisher
        ensures { result ≡ None }
    {
        Finisher { code: None }
    }

    /// Writes the word at this offset. The first ending value stays.
    pub fn write(&mut self, off: u32, value: u32)
        ensures { self.new ≡ written self.old off value }
    {
        if off == 0 && self.code.is_none() {
            self.code = ending(value);
        }
    }

    /// The code with which the guest ended.
    pub fn ended(&self) -> Option<u32>
        ensures { result ≡ self.now }
    {
        self.code
    }
}

/// The code of an ending value.
fn ending(value: u32) -> Option<u32>
    ensures { result ≡ ending value }
{
    if value == PASS {
        Some(0)
    } else if value % (1 << 16) == FAIL {
        Some(value >> 16)
    } else {
        None
    }
}
