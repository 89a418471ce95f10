//! What is loaded.

ghost use Rattle.std.specs.Prelude.{◌≡◌, ◌++◌, ◌∷◌, [], OnOk, OnErr};

use crate::NoMemory;
use outside::Bytes;
use std::alloc::Global;
use std::marker::Model;

/// Bytes and the address at which the first of them stands.
#[derive(Drop)]
pub struct Piece {
    pub at: u32,
    pub bytes: Bytes,
}

/// Pieces in the order in which they are copied, so that a later one wins.
#[derive(Drop)]
pub struct Pieces {
    pieces: Vec<Piece>,
}

impl Model for Pieces {
    ghost use Rattle.std.specs.Prelude.{List};
    ghost use Rattle.elf_load.specs.declared.pieces.Piece.{Piece};

    ghost Value = { List Piece };

    ghost view = { λ p. p.pieces.items };
}

impl Pieces {
    /// No piece.
    pub fn new(alloc: Global) -> Pieces
        ensures { result ≡ [] }
    {
        Pieces {
            pieces: Vec::new(alloc),
        }
    }

    /// Adds a piece at the end.
    pub fn push(&mut self, piece: Piece) -> Result<(), NoMemory>
        ensures ok { OnOk result (self.new ≡ self.old ++ piece ∷ []) }
        ensures err { OnErr result (self.new ≡ self.old) }
    {
        self.pieces.push(piece)?;
        Ok(())
    }

    /// The pieces.
    pub fn as_slice(&self) -> &[Piece]
        ensures { result.now ≡ self.now }
    {
        self.pieces.as_slice()
    }

    /// The vector that holds the pieces. Takes no memory.
    pub fn into_vec(self) -> Vec<Piece>
        ensures { result.items ≡ self }
    {
        self.pieces
    }
}

/// A firmware: where the hart begins, and what the RAM holds then besides zeros.
#[derive(Drop)]
pub struct Loaded {
    pub entry: u32,
    pub pieces: Pieces,
}
