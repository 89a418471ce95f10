//! A source that is read in pieces.

ghost use Rattle.std.specs.Prelude.{◌≡◌, Ok, None};
ghost use Rattle.io_workers.specs.Intake.{intake, none_given, Nexts, IsOver};

use crate::pieces::Pieces;
use crate::read_error::ReadError;
use outside::{Bytes, Source};
use std::alloc::Global;
use std::marker::Model;

/// Reads a source in pieces of 1 to 256 bytes, at most 2^40 bytes in all.
#[derive(Drop)]
pub struct Chunks<S: Source> {
    source: S,
    pieces: Pieces,
}

// Clauses see what the source has left, and how far it was read.
impl<S: Source> Model for Chunks<S> {
    ghost use Rattle.std.specs.Prelude.{◌≡◌, true};
    ghost use Rattle.io_workers.specs.Intake.{Intake, intake, IsOver};

    ghost Value = { Intake };

    ghost view = { λ c. intake (S.left c.source) (S.faults c.source) c.pieces };

    ghost invariant = { λ c. c.pieces.ended ≡ true
        → IsOver (intake (S.left c.source) (S.faults c.source) c.pieces) };
}

impl<S: Source> Chunks<S> {
    /// The pieces of a source from here on. Takes no memory.
    pub fn new(source: S) -> Chunks<S>
        ensures { result ≡ intake (S.left source) (S.faults source) none_given }
    {
        Chunks {
            source,
            pieces: Pieces::new(),
        }
    }

    /// The next 1 to 256 bytes, or none at the end. An error loses nothing, and the call may be
    /// made again.
    pub fn next(&mut self, alloc: Global) -> Result<Option<Bytes>, ReadError>
        ensures next { Nexts self.old self.new result }
        ensures over { result ≡ Ok None → IsOver self.new }
    {
        self.pieces.next(alloc, &mut self.source)
    }

    /// The source, with what it has left. Takes no memory.
    pub fn into_inner(self) -> S
        ensures left { S.left result ≡ self.left }
        ensures faults { S.faults result ≡ self.faults }
    {
        let Chunks { source, .. } = self;
        source
    }
}
