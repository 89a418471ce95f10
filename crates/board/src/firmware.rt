//! RAM with a firmware's pieces in it.

ghost use Rattle.std.specs.Prelude.{◌≡◌, ◌≤◌, ◌*◌, ◌^◌, IfOk, OnOk, length};
ghost use Rattle.std.specs.List.{AllByRecursion};
ghost use Rattle.ram_pages.specs.Memory.{written, zeros};
ghost use Rattle.elf_load.specs.Load.{IsInside};
ghost use Rattle.board.specs.Firmware.{filled};

use elf_load::Piece;
use outside::NoMemory;
use ram_pages::{Ram, RamError};
use std::alloc::{AllocError, Global};

/// Copies a piece into RAM.
#[tactic(auto, using(crate::proofs::Filling::written_length))]
fn fill(ram: &mut Ram, piece: &Piece) -> Result<(), NoMemory>
    requires { IsInside (length ram.old) piece.now }
    ensures ok { OnOk result (ram.new ≡ written ram.old piece.now.at piece.now.bytes) }
    ensures size { OnOk result (length ram.new ≡ length ram.old) }
{
    match ram.copy_in(u64::from(piece.at), piece.bytes.as_slice()) {
        Ok(()) => Ok(()),
        Err(RamError::NoMemory) => Err(AllocError),
        Err(RamError::Outside) => unreachable!(),
    }
}

/// A RAM of so many MiB, with the pieces copied in.
pub(crate) fn ram_with(alloc: Global, mib: u8, pieces: &[Piece]) -> Result<Ram, NoMemory>
    requires some { 1 ≤ mib }
    requires few { mib ≤ 64 }
    requires inside { AllByRecursion (IsInside (mib * 2 ^ 20)) pieces.now }
    ensures { IfOk result (λ ram. ram ≡ filled (zeros mib) pieces.now) }
{
    let mut ram = Ram::new(alloc, u32::from(mib))?;
    for piece in pieces {
        fill(&mut ram, piece)?;
    }
    Ok(ram)
}
