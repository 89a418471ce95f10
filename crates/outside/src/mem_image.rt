//! An image in memory, which fails on demand.
ghost use Rattle.std.specs.Prelude.{◌≡◌, ◌≤◌, ◌+◌, ◌↔◌, length, take, drop, Some, OnOk, IsErr, IsTrue, is_err};
ghost use Rattle.outside.specs.Causes.{HasCause};
ghost use Rattle.outside.specs.Fakes.{ImageState, uncalled, fails, called};

use crate::calls::Calls;
use crate::{Failed, Image, SureImage};
use std::marker::Model;

/// An image of these bytes. A read whose number, from 0, is in `failing` fails.
#[derive(Drop)]
pub struct MemImage {
    image: SureImage,
    calls: Calls,
}

impl Model for MemImage {
    ghost Value = { ImageState };

    ghost view = { λ i. record { bytes = i.image; calls = i.calls } };
}

impl MemImage {
    /// An image that was not read yet.
    pub fn new(bytes: Vec<u8>, failing: Vec<u64>) -> Self
        ensures { result ≡ record { bytes = bytes.items; calls = uncalled failing.items } }
    {
        MemImage {
            image: SureImage::new(bytes),
            calls: Calls::new(failing),
        }
    }

    pub(crate) fn faults(&self) -> u64
        ensures { result ≡ self.now.calls.faults }
    {
        self.calls.faults()
    }
}

impl Image for MemImage {
    ghost content = { λ i. Some i.bytes };

    ghost size = { λ i. length i.bytes };

    ghost faults = { λ i. i.calls.faults };

    fn len(&self) -> u64 {
        self.image.len()
    }

    fn read_at(&mut self, at: u64, buf: &mut [u8]) -> Result<(), Failed>
        requires { at + length buf.old ≤ length self.old.bytes }
        ensures bytes { OnOk result (buf.new ≡ take (length buf.old) (drop at self.old.bytes)) }
        ensures cause { HasCause self.old.calls.faults self.new.calls.faults result }
        // what this image does beside
        ensures fails { IsErr result ↔ IsTrue (fails self.old.calls) }
        ensures after { self.new ≡ record self.old {
          calls = called (is_err result) self.old.calls;
        } }
    {
        if self.calls.next_fails() {
            return Err(Failed);
        }
        self.image.read_at(at, buf)
    }
}
