//! The pieces of a source that stays with its owner.

ghost use Rattle.std.specs.Prelude.{◌≡◌};
ghost use Rattle.io_workers.specs.Intake.{none_given, intake, Nexts};

use crate::read_error::ReadError;
use outside::{Bytes, Source};
use std::alloc::Global;
use std::marker::Model;

/// How many bytes a piece has at most.
const LONGEST_PIECE: u64 = 256;

/// After so many bytes a source counts as ended.
const MOST: u64 = 1 << 40;

/// Reads a source that each call is handed, in pieces, and counts its bytes. `Chunks` is this with
/// its source; take it alone where the source stays with its owner.
#[derive(Drop)]
pub struct Pieces {
    count: u64,
    ended: bool,
}

// Clauses see how far the source was read.
impl Model for Pieces {
    ghost use Rattle.std.specs.Prelude.{◌≤◌, ◌^◌};
    ghost use Rattle.io_workers.specs.Intake.{Progress};

    ghost Value = { Progress };

    ghost view = { λ p. record { count = p.count; ended = p.ended } };

    ghost invariant = { λ p. p.count ≤ 2 ^ 40 };
}

impl Pieces {
    /// For a source that wasn't read yet. Takes no memory.
    pub fn new() -> Pieces
        ensures { result ≡ none_given }
    {
        Pieces {
            count: 0,
            ended: false,
        }
    }

    /// Whether the end was answered.
    pub fn ended(&self) -> bool
        ensures { result ≡ self.now.ended }
    {
        self.ended
    }

    /// The next 1 to 256 bytes, or none at the end: where the source has none left, or gave 2^40
    /// bytes. It is read at most once, and not again once its end was answered. An error loses
    /// nothing, and the call may be made again.
    pub fn next<S: Source>(
        &mut self,
        alloc: Global,
        source: &mut S,
    ) -> Result<Option<Bytes>, ReadError>
        ensures { Nexts (intake (S.left source.old) (S.faults source.old) self.old)
            (intake (S.left source.new) (S.faults source.new) self.new) result }
    {
        if self.ended {
            return Ok(None);
        }
        let room = LONGEST_PIECE.min(MOST - self.count);
        if room == 0 {
            self.ended = true;
            return Ok(None);
        }
        let mut piece = Vec::new(alloc);
        piece.resize(room as usize, 0)?;
        let count = source.read(&mut piece)?;
        if count == 0 {
            self.ended = true;
            return Ok(None);
        }
        piece.truncate(count);
        self.count += count as u64;
        Ok(Some(Bytes::from_vec(piece)))
    }
}
