//! A program header, which describes a segment (gABI, "Program Header").

ghost use Rattle.std.specs.Prelude.{◌≡◌, ◌≢◌, ◌+◌, ◌≤◌, ◌<◌, ◌^◌, length, Some, IfOk, OnOk};
ghost use Rattle.elf_load.specs.declared.error.LoadError.TheVariants.{NoMemory};
ghost use Rattle.elf_load.specs.Segments.{header_at, is_loaded, broken_by, bytes_of, HasBytes, with_piece};

use crate::NoMemory;
use crate::error::LoadError;
use crate::fields::u32_at;
use crate::loader::lies_in;
use crate::pieces::{Piece, Pieces};
use outside::Bytes;
use std::alloc::Global;

/// The kind of a segment that is loaded (PT_LOAD).
const LOADED: u32 = 1;

/// The fields that play a part.
#[derive(Clone, Copy, Debug)]
pub(crate) struct ProgramHeader {
    pub kind: u32,
    pub offset: u32,
    pub address: u32,
    pub file_size: u32,
    pub memory_size: u32,
}

impl ProgramHeader {
    /// The header at this offset.
    pub(crate) fn at(file: &[u8], at: usize) -> ProgramHeader
        requires { at + 32 ≤ length file.now }
        ensures { result ≡ header_at file.now at }
    {
        ProgramHeader {
            kind: u32_at(file, at),
            offset: u32_at(file, at + 4),
            address: u32_at(file, at + 12),
            file_size: u32_at(file, at + 16),
            memory_size: u32_at(file, at + 20),
        }
    }

    /// Whether the segment fills a part of the memory.
    fn is_loaded(&self) -> bool
        ensures { result ≡ is_loaded self.now }
    {
        self.kind == LOADED && self.memory_size != 0
    }

    /// The first rule that the segment breaks, if it fills a part of the memory.
    pub(crate) fn broken(&self, file: &[u8], ram: u64) -> Option<LoadError>
        requires { ram < 2 ^ 60 }
        ensures rule { result ≡ broken_by file.now ram self.now }
        ensures named { result ≢ Some NoMemory }
    {
        if !self.is_loaded() {
            None
        } else if self.file_size > self.memory_size {
            Some(LoadError::Sizes)
        } else if self.offset as usize + self.file_size as usize > file.len() {
            Some(LoadError::File)
        } else if !lies_in(ram, self.address, self.memory_size) {
            Some(LoadError::Memory)
        } else {
            None
        }
    }

    /// The segment's bytes in the file, followed by zeros up to its size in memory.
    fn bytes(&self, alloc: Global, file: &[u8]) -> Result<Bytes, NoMemory>
        requires sizes { self.now.file_size ≤ self.now.memory_size }
        requires file { self.now.offset + self.now.file_size ≤ length file.now }
        ensures { IfOk result (λ b. b ≡ bytes_of file.now self.now) }
    {
        let from = self.offset as usize;
        let mut bytes = Vec::from_slice(alloc, &file[from..from + self.file_size as usize])?;
        bytes.resize(self.memory_size as usize, 0)?;
        Ok(Bytes::from_vec(bytes))
    }

    /// Adds the segment's piece, if it fills a part of the memory.
    pub(crate) fn add(
        &self,
        alloc: Global,
        file: &[u8],
        pieces: &mut Pieces,
    ) -> Result<(), NoMemory>
        requires { HasBytes file.now self.now }
        ensures { OnOk result (pieces.new ≡ with_piece file.now pieces.old self.now) }
    {
        if !self.is_loaded() {
            return Ok(());
        }
        let bytes = self.bytes(alloc, file)?;
        pieces.push(Piece {
            at: self.address,
            bytes,
        })
    }
}
