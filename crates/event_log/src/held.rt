//! The bytes of a log that a reader or writer holds.

ghost use Rattle.std.specs.Prelude.{◌≡◌, ◌++◌, ◌+◌, ◌-◌, ◌<◌, ◌≤◌, length, take, drop, [], IfOk};
ghost use Rattle.outside.specs.Causes.{HasCause};
ghost use Rattle.event_log.specs.Streams.{ReadAt, Fills};

use outside::{Failed, NoMemory, Source};
use std::alloc::Global;
use std::marker::Model;

/// How many bytes are held at most.
pub const MOST: usize = 65536;

/// At most 65,536 bytes in a row.
#[derive(Drop)]
pub struct Held {
    buffer: Vec<u8>,
    start: usize,
    end: usize,
}

// Clauses see the bytes.
impl Model for Held {
    ghost use Rattle.std.specs.Prelude.{List, ℕ, ◌≡◌, ◌≤◌, take, drop, length};

    ghost Value = { List ℕ };

    ghost view = { λ h. drop h.start (take h.end h.buffer.items) };

    ghost invariant = { λ h. (h.start ≤ h.end) × (h.end ≤ 65536)
        × (length h.buffer.items ≡ 65536) };
}

impl Held {
    /// None held, with room for all.
    pub fn new(alloc: Global) -> Result<Held, NoMemory>
        ensures { IfOk result (λ h. h ≡ []) }
    {
        let mut buffer = Vec::new(alloc);
        buffer.resize(MOST, 0)?;
        Ok(Held {
            buffer,
            start: 0,
            end: 0,
        })
    }

    pub fn as_slice(&self) -> &[u8]
        ensures bytes { result.now ≡ self.now }
        ensures most { length self.now ≤ 65536 }
    {
        &self.buffer[self.start..self.end]
    }

    pub fn len(&self) -> usize
        ensures count { result ≡ length self.now }
        ensures most { result ≤ 65536 }
    {
        self.end - self.start
    }

    pub fn clear(&mut self)
        ensures { self.new ≡ [] }
    {
        self.start = 0;
        self.end = 0;
    }

    /// Lets the first bytes go.
    pub fn skip(&mut self, count: usize)
        requires { count ≤ length self.old }
        ensures { self.new ≡ drop count self.old }
    {
        self.start += count;
    }

    /// Holds the bytes behind those that are held.
    pub fn append(&mut self, bytes: &[u8])
        requires { length self.old + length bytes.now ≤ 65536 }
        ensures { self.new ≡ self.old ++ bytes.now }
    {
        to_front(&mut self.buffer, self.start, self.end);
        self.end -= self.start;
        self.start = 0;
        put_at(&mut self.buffer, self.end, bytes);
        self.end += bytes.len();
    }

    /// Reads bytes of the source, at most so many, behind those that are held.
    pub fn fill<S: Source>(&mut self, source: &mut S, most: u64) -> Result<usize, Failed>
        requires room { length self.old < 65536 }
        requires some { 0 < most }
        ensures bytes { Fills (S.left source.old) (S.left source.new) most
            self.old self.new result }
        ensures cause { HasCause (S.faults source.old) (S.faults source.new) result }
    {
        to_front(&mut self.buffer, self.start, self.end);
        self.end -= self.start;
        self.start = 0;
        let count = read_at(source, &mut self.buffer, self.end, most)?;
        self.end += count;
        Ok(count)
    }
}

// Moves the bytes of a range to the front.
fn to_front(buffer: &mut [u8], start: usize, end: usize)
    requires order { start ≤ end }
    requires within { end ≤ length buffer.old }
    ensures bytes { take (end - start) buffer.new ≡ drop start (take end buffer.old) }
    ensures size { length buffer.new ≡ length buffer.old }
{
    if start == 0 {
        return;
    }
    buffer.copy_within(start..end, 0);
}

// Writes bytes at a place.
fn put_at(buffer: &mut [u8], at: usize, bytes: &[u8])
    requires { at + length bytes.now ≤ length buffer.old }
    ensures bytes { take (at + length bytes.now) buffer.new ≡ take at buffer.old ++ bytes.now }
    ensures size { length buffer.new ≡ length buffer.old }
{
    buffer[at..at + bytes.len()].copy_from_slice(bytes);
}

// Reads bytes of the source, at most so many, to a place.
fn read_at<S: Source>(
    source: &mut S,
    buffer: &mut [u8],
    at: usize,
    most: u64,
) -> Result<usize, Failed>
    requires room { at < length buffer.old }
    requires some { 0 < most }
    ensures bytes { ReadAt (S.left source.old) (S.left source.new) most
        at buffer.old buffer.new result }
    ensures cause { HasCause (S.faults source.old) (S.faults source.new) result }
    ensures size { length buffer.new ≡ length buffer.old }
{
    let room = (buffer.len() - at) as u64;
    let count = room.min(most) as usize;
    source.read(&mut buffer[at..at + count])
}
