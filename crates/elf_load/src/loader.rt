//! The loader.

ghost use Rattle.std.specs.Prelude.{◌≡◌, ◌<◌, ◌≤◌, ◌^◌, ◌*◌, ◌∷◌, [], IfOk, length};
ghost use Rattle.elf_load.specs.Fields.{ram_start, lies_in};
ghost use Rattle.elf_load.specs.Load.{is_elf, raw, loaded, Loads, LiesInRam};

use crate::NoMemory;
use crate::error::LoadError;
use crate::executable::load_executable;
use crate::pieces::{Loaded, Piece, Pieces};
use outside::Bytes;
use std::alloc::Global;

/// The address of the RAM's first byte.
const RAM_START: u32 = 0x8000_0000;

/// The bytes of a MiB.
const MIB: u64 = 1 << 20;

/// With what an ELF file begins (gABI, "ELF Identification").
const MAGIC: [u8; 4] = [0x7f, b'E', b'L', b'F'];

/// Whether a range lies in a RAM of so many bytes.
pub(crate) fn lies_in(ram: u64, at: u32, len: u32) -> bool
    requires { ram < 2 ^ 60 }
    ensures { result ≡ lies_in ram at len }
{
    RAM_START <= at && u64::from(at) + u64::from(len) <= u64::from(RAM_START) + ram
}

/// Whether the file begins as an ELF file does.
fn is_elf(file: &[u8]) -> bool
    ensures { result ≡ is_elf file.now }
{
    file.starts_with(&MAGIC)
}

/// Loads a file as it is.
fn load_raw(alloc: Global, file: &[u8], ram: u64) -> Result<Loaded, LoadError>
    ensures { Loads (raw file.now ram) result }
{
    if file.len() as u64 > ram {
        return Err(LoadError::TooLong);
    }
    match whole(alloc, file) {
        Ok(pieces) => Ok(Loaded {
            entry: RAM_START,
            pieces,
        }),
        Err(_) => Err(LoadError::NoMemory),
    }
}

/// One piece at the start of RAM, with all bytes of the file.
fn whole(alloc: Global, file: &[u8]) -> Result<Pieces, NoMemory>
    ensures { IfOk result (λ pieces. pieces ≡ record { at = ram_start; bytes = file.now } ∷ []) }
{
    let bytes = Bytes::of(alloc, file)?;
    let mut pieces = Pieces::new(alloc);
    pieces.push(Piece {
        at: RAM_START,
        bytes,
    })?;
    Ok(pieces)
}

/// Loads an executable by its segments, and any other file as it is.
fn load_by_kind(alloc: Global, file: &[u8], ram_mib: u32) -> Result<Loaded, LoadError>
    ensures { Loads (loaded file.now ram_mib) result }
{
    let ram = u64::from(ram_mib) * MIB;
    if is_elf(file) {
        load_executable(alloc, file, ram)
    } else {
        load_raw(alloc, file, ram)
    }
}

/// Loads a file for a RAM of so many MiB: its pieces and its entry, or the first rule that it
/// breaks.
pub fn load(alloc: Global, file: &[u8], ram_mib: u32) -> Result<Loaded, LoadError>
    ensures loaded { Loads (loaded file.now ram_mib) result }

    // So a caller may copy every piece into a RAM of this size.
    ensures inside { IfOk result (λ firmware. 1 ≤ ram_mib → LiesInRam ram_mib firmware) }
{
    load_by_kind(alloc, file, ram_mib)
}
