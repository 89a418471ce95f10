//! A sink in memory, which fails on demand.
ghost use Rattle.std.specs.Prelude.{◌≡◌, ◌<◌, ◌++◌, length, [], take, Some, None, IfOk, IsErr, IsTrue, is_err};
ghost use Rattle.std.specs.Io.{WritesAtMost};
ghost use Rattle.outside.specs.Causes.{HasCause};
ghost use Rattle.outside.specs.Told.{WriteTakes};
ghost use Rattle.outside.specs.Fakes.{SinkState, uncalled, fails, called, moved};

use crate::calls::Calls;
use crate::{Failed, Role, Sink};
use std::alloc::Global;
use std::marker::Model;

/// Keeps what it takes, whole pieces at once. A call whose number, from 0, is in `failing` fails,
/// and so does one whose bytes find no memory.
#[derive(Drop)]
pub struct MemSink {
    role: Option<Role>,
    kept: Vec<u8>,
    calls: Calls,
}

impl Model for MemSink {
    ghost Value = { SinkState };

    ghost view = { λ k. record { role = k.role; kept = k.kept.items; calls = k.calls } };
}

impl MemSink {
    /// A sink that has taken nothing.
    pub fn new(alloc: Global, failing: Vec<u64>) -> Self
        ensures { result ≡ record { role = None; kept = []; calls = uncalled failing.items } }
    {
        MemSink {
            role: None,
            kept: Vec::new(alloc),
            calls: Calls::new(failing),
        }
    }

    /// One that a world opened for the role.
    pub(crate) fn opened(alloc: Global, role: Role, failing: Vec<u64>) -> Self
        ensures { result ≡ record { role = Some role; kept = []; calls = uncalled failing.items } }
    {
        MemSink {
            role: Some(role),
            kept: Vec::new(alloc),
            calls: Calls::new(failing),
        }
    }

    /// The bytes taken.
    pub fn bytes(&self) -> &[u8]
        ensures { result.now ≡ self.now.kept }
    {
        &self.kept
    }

    pub(crate) fn faults(&self) -> u64
        ensures { result ≡ self.now.calls.faults }
    {
        self.calls.faults()
    }

    pub(crate) fn into_bytes(self) -> Vec<u8>
        ensures { result.items ≡ self.kept }
    {
        self.kept
    }
}

impl Sink for MemSink {
    ghost role = { λ k. k.role };

    ghost taken = { λ k. Some k.kept };

    ghost faults = { λ k. k.calls.faults };

    fn write(&mut self, bytes: &[u8]) -> Result<usize, Failed>
        requires { 0 < length bytes.now }
        ensures count { WritesAtMost result bytes.now }
        ensures some { IfOk result (λ n. 0 < n) }
        ensures bytes { WriteTakes (Some self.old.kept) (Some self.new.kept) result bytes.now }
        ensures role { self.new.role ≡ self.old.role }
        ensures cause { HasCause self.old.calls.faults self.new.calls.faults result }
        // what this sink does beside
        ensures fails { IsTrue (fails self.old.calls) → IsErr result }
        ensures whole { IfOk result (λ n. n ≡ length bytes.now) }
        ensures after { self.new ≡ record self.old {
          kept = self.old.kept ++ take (moved result) bytes.now;
          calls = called (is_err result) self.old.calls;
        } }
    {
        if self.calls.next_fails() {
            return Err(Failed);
        }
        if self.kept.extend_from_slice(bytes).is_err() {
            self.calls.fail();
            return Err(Failed);
        }
        Ok(bytes.len())
    }
}
