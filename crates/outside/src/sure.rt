//! Devices in memory that never fail.
ghost use Rattle.std.specs.Prelude.{◌≡◌, ◌<◌, ◌≤◌, ◌+◌, List, ℕ, length, [], take, drop, min, Some, None, option_copied, if◌then◌else◌};
ghost use Rattle.std.specs.declared.option.Option.{Option};

use crate::{Failed, Image, Sink, Source};
use std::alloc::Global;
use std::marker::Model;

/// Gives these bytes, as many at once as fit. Contracts see it as the bytes left.
#[derive(Drop)]
pub struct SureSource {
    bytes: Vec<u8>,
    at: usize,
}

impl Model for SureSource {
    ghost Value = { List ℕ };

    ghost view = { λ s. drop s.at s.bytes.items };

    ghost invariant = { λ s. s.at ≤ length s.bytes.items };
}

impl SureSource {
    /// A source of these bytes.
    pub fn new(bytes: Vec<u8>) -> Self
        ensures { result ≡ bytes.items }
    {
        SureSource { bytes, at: 0 }
    }

    /// The bytes that are left.
    pub(crate) fn left(&self) -> &[u8]
        ensures { result.now ≡ self.now }
    {
        &self.bytes[self.at..]
    }

    /// Copies as many of the next bytes as fit, and goes past them.
    pub(crate) fn give(&mut self, buf: &mut [u8]) -> usize
        ensures count { result ≡ min (length buf.old) (length self.old) }
        ensures room { length buf.new ≡ length buf.old }
        ensures bytes { take result buf.new ≡ take result self.old }
        ensures left { self.new ≡ drop result self.old }
    {
        let count = copy_front(&self.bytes[self.at..], buf);
        self.at += count;
        count
    }
}

// Copies as many bytes as fit to the front of the buffer.
fn copy_front(bytes: &[u8], buf: &mut [u8]) -> usize
    ensures count { result ≡ min (length buf.old) (length bytes.now) }
    ensures room { length buf.new ≡ length buf.old }
    ensures bytes { take result buf.new ≡ take result bytes.now }
{
    let count = buf.len().min(bytes.len());
    buf[..count].copy_from_slice(&bytes[..count]);
    count
}

impl Source for SureSource {
    ghost left = { λ s. Some s };

    ghost faults = { λ _. 0 };

    fn read(&mut self, buf: &mut [u8]) -> Result<usize, Failed> {
        Ok(self.give(buf))
    }
}

/// Keeps what it takes. Where memory is refused it takes what comes from then on without keeping
/// it. Contracts see it as the bytes taken, where all of them were kept.
#[derive(Drop)]
pub struct SureSink {
    kept: Vec<u8>,
    whole: bool,
}

impl Model for SureSink {
    ghost Value = { Option (List ℕ) };

    ghost view = { λ k. if k.whole then Some k.kept.items else None };
}

impl SureSink {
    /// A sink that has taken nothing.
    pub fn new(alloc: Global) -> Self
        ensures { result ≡ Some [] }
    {
        SureSink {
            kept: Vec::new(alloc),
            whole: true,
        }
    }

    /// The bytes taken. None where it tells nothing, since memory was refused.
    pub fn bytes(&self) -> Option<&[u8]>
        ensures { option_copied result ≡ self.now }
    {
        if self.whole { Some(&self.kept) } else { None }
    }
}

impl Sink for SureSink {
    ghost role = { λ _. None };

    ghost taken = { λ k. k };

    ghost faults = { λ _. 0 };

    fn write(&mut self, bytes: &[u8]) -> Result<usize, Failed> {
        if self.whole && self.kept.extend_from_slice(bytes).is_err() {
            self.whole = false;
        }
        Ok(bytes.len())
    }
}

/// An image of these bytes. Contracts see it as them.
#[derive(Drop)]
pub struct SureImage {
    bytes: Vec<u8>,
}

impl Model for SureImage {
    ghost Value = { List ℕ };

    ghost view = { λ i. i.bytes.items };
}

impl SureImage {
    /// An image of these bytes.
    pub fn new(bytes: Vec<u8>) -> Self
        ensures { result ≡ bytes.items }
    {
        SureImage { bytes }
    }
}

impl Image for SureImage {
    ghost content = { λ i. Some i };

    ghost size = { λ i. length i };

    ghost faults = { λ _. 0 };

    fn len(&self) -> u64 {
        self.bytes.len() as u64
    }

    fn read_at(&mut self, at: u64, buf: &mut [u8]) -> Result<(), Failed> {
        let start = at as usize;
        buf.copy_from_slice(&self.bytes[start..start + buf.len()]);
        Ok(())
    }
}
