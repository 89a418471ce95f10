//! A file of packets.

ghost use Rattle.std.specs.Prelude.{◌≡◌, Ok, None};
ghost use Rattle.std.specs.Io.KnownBytes.{prepend_known};
ghost use Rattle.io_workers.specs.PacketFile.{reading, unread, Nexts, NoneComes};

use crate::frames::Frames;
use crate::read_error::ReadError;
use outside::{Bytes, Source};
use std::alloc::Global;
use std::marker::Model;

/// Reads the packets of a file, which stand one after another: of each its length, in four bytes with
/// the most significant first, and its 14 to 1514 bytes. The first packet that isn't whole or in
/// range, or that passes the file's first 2^40 bytes, counts as the file's end.
#[derive(Drop)]
pub struct Packets<S: Source> {
    source: S,
    frames: Frames,
}

// Clauses see what stands behind the packets that were given, and how far the file was read.
impl<S: Source> Model for Packets<S> {
    ghost use Rattle.std.specs.Prelude.{◌≡◌, true};
    ghost use Rattle.io_workers.specs.PacketFile.{Reading, reading, NoneComes};

    ghost Value = { Reading };

    ghost view = { λ p. reading (S.left p.source) (S.faults p.source) p.frames };

    ghost invariant = { λ p. p.frames.ended ≡ true
        → NoneComes (reading (S.left p.source) (S.faults p.source) p.frames) };
}

impl<S: Source> Packets<S> {
    /// The packets of a file from here on. Takes no memory.
    pub fn new(source: S) -> Packets<S>
        ensures { result ≡ reading (S.left source) (S.faults source) unread }
    {
        Packets {
            source,
            frames: Frames::new(),
        }
    }

    /// The next packet, or none at the end. An error loses nothing, and the call may be made again.
    pub fn next(&mut self, alloc: Global) -> Result<Option<Bytes>, ReadError>
        ensures next { Nexts self.old self.new result }
        ensures over { result ≡ Ok None → NoneComes self.new }
    {
        self.frames.next(alloc, &mut self.source)
    }

    /// The source, with what it has left behind what was read. Takes no memory.
    pub fn into_inner(self) -> S
        ensures left { prepend_known self.place.held (S.left result) ≡ self.left }
        ensures faults { S.faults result ≡ self.faults }
    {
        let Packets { source, .. } = self;
        source
    }
}
