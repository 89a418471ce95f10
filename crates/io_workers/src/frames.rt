//! The packets of a file that stays with its owner.

ghost use Rattle.std.specs.Prelude.{◌≡◌, ◌≤◌, ◌<◌, ◌+◌, ◌^◌, Ok, Some, None, true, false, length, take, drop, max, IfOk, IfSome};
ghost use Rattle.std.specs.Int.{w32, from_be_bytes};
ghost use Rattle.std.specs.Io.KnownBytes.{IsAtEnd, Keeps, prepend_known};
ghost use Rattle.outside.specs.Causes.{HasCause};
ghost use Rattle.io_workers.specs.PacketFile.{unread, reading, Nexts, NoneComes, Spells, IsBegun};

use crate::read_error::ReadError;
use outside::{Bytes, Failed, Source};
use std::alloc::Global;
use std::marker::Model;

/// How many bytes say a packet's length.
const LENGTH: usize = 4;

/// The fewest and the most bytes of a packet: an Ethernet frame without its check sequence.
const SHORTEST: u32 = 14;

const LONGEST: u32 = 1514;

/// The most bytes of a packet in the file.
const ROOM: usize = LENGTH + LONGEST as usize;

/// The fewest bytes of a packet in the file.
const FEWEST: u64 = LENGTH as u64 + SHORTEST as u64;

/// So many bytes of a file are read; what follows counts as its end.
const MOST: u64 = 1 << 40;

/// Reads the packets of a source that each call is handed. `Packets` is this with its source; take
/// it alone where the source stays with its owner.
#[derive(Drop)]
pub struct Frames {
    buffer: [u8; ROOM],
    held: usize,
    count: u64,
    ended: bool,
}

// Clauses see how far the file was read.
impl Model for Frames {
    ghost use Rattle.std.specs.Prelude.{◌≤◌, ◌+◌, ◌^◌, take};
    ghost use Rattle.io_workers.specs.PacketFile.{Place, IsBegun};

    ghost Value = { Place };

    ghost view = { λ f. record { held = take f.held f.buffer; count = f.count; ended = f.ended } };

    ghost invariant = { λ f. (f.held ≤ 1518) × (f.count + f.held ≤ 2 ^ 40)
        × IsBegun (take f.held f.buffer) };
}

impl Frames {
    /// For a file that wasn't read yet. Takes no memory.
    pub fn new() -> Frames
        ensures { result ≡ unread }
    {
        Frames {
            buffer: [0; ROOM],
            held: 0,
            count: 0,
            ended: false,
        }
    }

    /// Whether the end was answered.
    pub fn ended(&self) -> bool
        ensures { result ≡ self.now.ended }
    {
        self.ended
    }

    /// The next packet, or none at the first that isn't whole or in range. Nothing behind a packet is
    /// read before it is asked for. An error loses nothing, and the call may be made again.
    pub fn next<S: Source>(
        &mut self,
        alloc: Global,
        source: &mut S,
    ) -> Result<Option<Bytes>, ReadError>
        ensures { Nexts (reading (S.left source.old) (S.faults source.old) self.old)
            (reading (S.left source.new) (S.faults source.new) self.new) result }
    {
        if self.ended {
            return Ok(None);
        }
        let Some(size) = self.find(source)? else {
            self.ended = true;
            return Ok(None);
        };
        let packet = Bytes::of(alloc, &self.buffer[LENGTH..size])?;
        self.count += size as u64;
        self.held = 0;
        Ok(Some(packet))
    }

    /// Reads on until the next packet is held whole, and says how many bytes it has in the file; none
    /// where no packet comes.
    fn find<S: Source>(&mut self, source: &mut S) -> Result<Option<usize>, Failed>
        ensures found { IfOk result (λ found. IfSome found (λ size.
            (size ≡ length self.new.held) × Spells (drop 4 self.new.held) self.new.held)) }
        ensures none { result ≡ Ok None
            → NoneComes (reading (S.left source.new) (S.faults source.new) self.new) }
        ensures bytes { Keeps (prepend_known self.old.held (S.left source.old))
            (prepend_known self.new.held (S.left source.new)) }
        ensures count { self.new.count ≡ self.old.count }
        ensures ended { self.new.ended ≡ self.old.ended }
        ensures cause { HasCause (S.faults source.old) (S.faults source.new) result }
    {
        let room = MOST - self.count;
        if room < FEWEST || !self.fill(source, LENGTH)? {
            return Ok(None);
        }
        let length = self.length();
        if !(SHORTEST..=LONGEST).contains(&length) {
            return Ok(None);
        }
        let size = LENGTH + length as usize;
        if size as u64 > room || !self.fill(source, size)? {
            return Ok(None);
        }
        Ok(Some(size))
    }

    /// The length that the next packet says it has.
    fn length(&self) -> u32
        requires { 4 ≤ length self.now.held }
        ensures { result ≡ from_be_bytes w32 (take 4 self.now.held) }
    {
        let [first, second, third, fourth, ..] = self.buffer;
        u32::from_be_bytes([first, second, third, fourth])
    }

    /// Reads on until so many bytes of the packet are held. False where the file ends before.
    fn fill<S: Source>(&mut self, source: &mut S, size: usize) -> Result<bool, Failed>
        requires few { size ≤ 1518 }
        requires within { self.old.count + size ≤ 2 ^ 40 }
        requires begun { 4 < size → (4 ≤ length self.old.held)
            × (size ≤ 4 + from_be_bytes w32 (take 4 self.old.held)) }
        ensures filled { result ≡ Ok true → size ≤ length self.new.held }
        ensures more { length self.new.held ≤ max size (length self.old.held) }
        ensures front { take (length self.old.held) self.new.held ≡ self.old.held }
        ensures begun { IsBegun self.new.held }
        ensures end { result ≡ Ok false
            → (length self.new.held < size) × IsAtEnd (S.left source.new) }
        ensures bytes { Keeps (prepend_known self.old.held (S.left source.old))
            (prepend_known self.new.held (S.left source.new)) }
        ensures count { self.new.count ≡ self.old.count }
        ensures ended { self.new.ended ≡ self.old.ended }
        ensures cause { HasCause (S.faults source.old) (S.faults source.new) result }
    {
        while self.held < size {
            let count = source.read(&mut self.buffer[self.held..size])?;
            if count == 0 {
                return Ok(false);
            }
            self.held += count;
        }
        Ok(true)
    }
}
