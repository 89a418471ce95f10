//! A source in memory, which gives its bytes in chunks and fails on demand.
ghost use Rattle.std.specs.Prelude.{◌≡◌, ◌<◌, ◌↔◌, length, drop, Some, IfOk, IsErr, IsTrue, is_err, slice_get};
ghost use Rattle.std.specs.Io.{ReadsAtMost};
ghost use Rattle.std.specs.Io.KnownBytes.{ReadConsumes};
ghost use Rattle.outside.specs.Causes.{HasCause};
ghost use Rattle.outside.specs.Told.{StaysQuiet};
ghost use Rattle.outside.specs.Fakes.{SourceState, uncalled, fails, called, filled, share, moved};

use crate::calls::Calls;
use crate::{Failed, Source, SureSource};
use std::marker::Model;

/// Gives these bytes. Its call number k, from 0, gives at most `chunks[k]` bytes and at least one,
/// and past the list as many as fit. A call whose number is in `failing` fails, and gives none.
#[derive(Drop)]
pub struct MemSource {
    source: SureSource,
    chunks: Vec<usize>,
    calls: Calls,
}

impl Model for MemSource {
    ghost Value = { SourceState };

    ghost view = { λ s. record { left = s.source; chunks = s.chunks.items; calls = s.calls } };
}

impl MemSource {
    /// A source that was not called yet.
    pub fn new(bytes: Vec<u8>, chunks: Vec<usize>, failing: Vec<u64>) -> Self
        ensures { result ≡ record {
          left = bytes.items;
          chunks = chunks.items;
          calls = uncalled failing.items;
        } }
    {
        MemSource {
            source: SureSource::new(bytes),
            chunks,
            calls: Calls::new(failing),
        }
    }

    /// The bytes that are left.
    pub(crate) fn left(&self) -> &[u8]
        ensures { result.now ≡ self.now.left }
    {
        self.source.left()
    }

    pub(crate) fn faults(&self) -> u64
        ensures { result ≡ self.now.calls.faults }
    {
        self.calls.faults()
    }
}

// How much of a room that call fills: at least one byte, and past the list as many as fit.
fn room_of(chunks: &[usize], call: u64, room: usize) -> usize
    ensures { result ≡ filled (slice_get chunks.now call) room }
{
    if call < chunks.len() as u64 {
        chunks[call as usize].max(1).min(room)
    } else {
        room
    }
}

impl Source for MemSource {
    ghost left = { λ s. Some s.left };

    ghost faults = { λ s. s.calls.faults };

    fn read(&mut self, buf: &mut [u8]) -> Result<usize, Failed>
        requires { 0 < length buf.old }
        ensures count { ReadsAtMost result buf.new }
        ensures bytes { ReadConsumes (Some self.old.left) (Some self.new.left) result buf.new }
        ensures quiet { StaysQuiet (Some self.old.left) (Some self.new.left) }
        ensures cause { HasCause self.old.calls.faults self.new.calls.faults result }
        // what this source does beside
        ensures fails { IsErr result ↔ IsTrue (fails self.old.calls) }
        ensures share { IfOk result (λ n. n ≡ share self.old (length buf.new)) }
        ensures after { self.new ≡ record self.old {
          left = drop (moved result) self.old.left;
          calls = called (is_err result) self.old.calls;
        } }
    {
        let call = self.calls.made();
        if self.calls.next_fails() {
            return Err(Failed);
        }
        let room = room_of(&self.chunks, call, buf.len());
        Ok(self.source.give(&mut buf[..room]))
    }
}
