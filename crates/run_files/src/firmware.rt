//! The firmware's file: read whole, digested and loaded.

ghost use Rattle.std.specs.Prelude.{◌≡◌, ◌≤◌, ◌<◌, [], ◌∷◌, length, Ok, Err, IfOk, IfErr, IfSome, OnOk, OnErr, IsErrOf};
ghost use Rattle.sha2.specs.Sha256.{sha256};
ghost use Rattle.outside.specs.Causes.{Rose};
ghost use Rattle.outside.specs.Roles.{at};
ghost use Rattle.outside.specs.declared.roles.Role.TheVariants.{Firmware as FirmwareRole};
ghost use Rattle.elf_load.specs.Load.{loaded, LiesInRam};
ghost use Rattle.outside.specs.Openings.{Opens, OpensFront};
ghost use Rattle.run_files.specs.Ledgers.{only_opening, Balanced};
ghost use Rattle.run_files.specs.Files.{firmware_opening, FailsToOpen, CountsSame};
ghost use Rattle.run_files.specs.Firmwares.{IsRefused, IsRefusedFile, IsFirmwareOf};

use crate::files::{FileFault, read_file};
use elf_load::{LoadError, Loaded, load};
use outside::{Role, World};
use sha2::{Digest, Sha256};
use std::alloc::Global;

/// The most bytes that a firmware's file may have.
pub const FIRMWARE_LIMIT: usize = 268_435_456;

/// What a firmware's file gives.
#[derive(Drop)]
pub struct Firmware {
    /// The SHA-256 of the file.
    pub digest: [u8; 32],
    pub loaded: Loaded,
}

/// Why a firmware's file gives nothing.
#[derive(Clone, Copy, Debug, PartialEq, Eq)]
pub enum FirmwareFault {
    CannotOpen,
    CannotRead,
    /// The rule that the file breaks: `TooLong` also where it is above the limit.
    Bad(LoadError),
    NoMemory,
}

/// The SHA-256 of the bytes.
pub fn digest(bytes: &[u8]) -> [u8; 32]
    ensures { result ≡ sha256 bytes.now }
{
    let mut hasher = Sha256::new();
    hasher.update(bytes);
    hasher.finalize()
}

/// What the bytes of a firmware's file give for a RAM of so many MiB.
fn firmware_of(alloc: Global, file: &[u8], ram_mib: u32) -> Result<Firmware, FirmwareFault>
    ensures ok { IfOk result (λ f. IsFirmwareOf file.now ram_mib f) }
    ensures inside { IfOk result (λ f. 1 ≤ ram_mib → LiesInRam ram_mib f.loaded) }
    ensures refused { IfErr result (λ e. IsRefused file.now ram_mib e) }
{
    match load(alloc, file, ram_mib) {
        Ok(loaded) => Ok(Firmware {
            digest: digest(file),
            loaded,
        }),
        Err(LoadError::NoMemory) => Err(FirmwareFault::NoMemory),
        Err(rule) => Err(FirmwareFault::Bad(rule)),
    }
}

/// Reads a firmware's file and loads it for a RAM of so many MiB.
pub fn read_firmware<W: World>(
    alloc: Global,
    name: &str,
    ram_mib: u32,
    world: &mut W,
) -> Result<Firmware, FirmwareFault>
    ensures ok { IfOk result (λ f. IfSome ((W.ledger world.old).names name.now)
        (λ file. IsFirmwareOf file ram_mib f × (length file ≤ FIRMWARE_LIMIT))) }
    ensures inside { IfOk result (λ f. 1 ≤ ram_mib → LiesInRam ram_mib f.loaded) }
    ensures kept { OnOk result (CountsSame FirmwareRole (W.ledger world.old) (W.ledger world.new)) }

    ensures refused { IfErr result (λ e. IfSome ((W.ledger world.old).names name.now)
        (λ file. IsRefusedFile file ram_mib e)) }
    ensures unopened { IsErrOf result FirmwareFault.CannotOpen → FailsToOpen (firmware_opening name.now)
        (W.ledger world.old) (W.ledger world.new) }
    ensures unread { IsErrOf result FirmwareFault.CannotRead
        → Rose (at (W.ledger world.old).faults FirmwareRole)
        (at (W.ledger world.new).faults FirmwareRole) }

    ensures openings { OpensFront (W.ledger world.old).openings (W.ledger world.new).openings
        (firmware_opening name.now ∷ []) }
    ensures opened { OnOk result (Opens (W.ledger world.old).openings
        (W.ledger world.new).openings (firmware_opening name.now ∷ [])) }
    ensures opening_kept { (IsErrOf result FirmwareFault.CannotOpen → ⊥)
        → (W.ledger world.new).opening_faults ≡ (W.ledger world.old).opening_faults }
    ensures source_kept { (IsErrOf result FirmwareFault.CannotRead → ⊥)
        → at (W.ledger world.new).faults FirmwareRole ≡ at (W.ledger world.old).faults FirmwareRole }
    ensures balanced { Balanced FirmwareRole (W.ledger world.old) (W.ledger world.new) }
    ensures rest { W.ledger world.new
        ≡ only_opening FirmwareRole (W.ledger world.old) (W.ledger world.new) }
{
    match read_file(alloc, Role::Firmware, name, FIRMWARE_LIMIT, world) {
        Ok(file) => firmware_of(alloc, &file, ram_mib),
        Err(FileFault::CannotOpen) => Err(FirmwareFault::CannotOpen),
        Err(FileFault::CannotRead) => Err(FirmwareFault::CannotRead),
        Err(FileFault::TooLong) => Err(FirmwareFault::Bad(LoadError::TooLong)),
        Err(FileFault::NoMemory) => Err(FirmwareFault::NoMemory),
    }
}
