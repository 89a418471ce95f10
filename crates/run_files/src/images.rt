//! The images of a replay: those that its log's header names.

ghost use Rattle.std.specs.Prelude.{◌≡◌, ◌≢◌, ◌≤◌, [], ◌∷◌, true, false, IfOk, IfErr, IfSome, OnOk, IsErrOf};
ghost use Rattle.outside.specs.Causes.{Rose};
ghost use Rattle.outside.specs.Roles.{at};
ghost use Rattle.outside.specs.declared.roles.Role.TheVariants.{Firmware as FirmwareRole};
ghost use Rattle.elf_load.specs.Load.{LiesInRam};
ghost use Rattle.outside.specs.Openings.{Opens, OpensFront};
ghost use Rattle.run_files.specs.Ledgers.{only_opening, Balanced};
ghost use Rattle.run_files.specs.Files.{firmware_opening, FailsToOpen, CountsSame};
ghost use Rattle.run_files.specs.Images.{NamesNoDisk, IsFirmware};
ghost use Rattle.run_files.specs.Images.{ImageGives, IsImageFault};

use crate::files::{FileFault, read_file};
use crate::firmware::{FIRMWARE_LIMIT, digest};
use elf_load::{LoadError, Loaded, load};
use event_log::Header;
use outside::{Role, World};
use std::alloc::Global;

/// Why the firmware's file isn't the image of a replay.
#[derive(Clone, Copy, Debug, PartialEq, Eq)]
pub enum ImageFault {
    CannotOpen,
    CannotRead,
    /// The file has another digest than the header's firmware.
    OtherFirmware,
    /// The rule that the file breaks: `TooLong` also where it is above the limit.
    Bad(LoadError),
    /// The header's disk has a length, and there is no disk.
    OtherDiskLength,
    /// The header's disk has another digest than no bytes.
    OtherDisk,
    NoMemory,
}

/// Whether two digests are the same.
fn is_same(one: &[u8; 32], other: &[u8; 32]) -> bool
    ensures same { result ≡ true → one.now ≡ other.now }
    ensures another { result ≡ false → one.now ≢ other.now }
{
    one == other
}

/// What the bytes of the firmware's file give: the digest is compared, then they are loaded, then
/// the disk is compared.
fn image_of(alloc: Global, header: &Header, file: &[u8]) -> Result<Loaded, ImageFault>
    ensures given { ImageGives header.now file.now result }
    ensures inside { IfOk result (λ f. 1 ≤ header.now.ram_mib → LiesInRam header.now.ram_mib f) }
{
    if !is_same(&digest(file), &header.firmware) {
        return Err(ImageFault::OtherFirmware);
    }
    let firmware = match load(alloc, file, u32::from(header.ram_mib)) {
        Ok(firmware) => firmware,
        Err(LoadError::NoMemory) => return Err(ImageFault::NoMemory),
        Err(rule) => return Err(ImageFault::Bad(rule)),
    };
    if header.disk_len != 0 {
        return Err(ImageFault::OtherDiskLength);
    }
    if !is_same(&header.disk, &digest(&[])) {
        return Err(ImageFault::OtherDisk);
    }
    Ok(firmware)
}

/// Reads the firmware's file and loads it, where it and the disk are those of the header.
pub fn read_image<W: World>(
    alloc: Global,
    name: &str,
    header: &Header,
    world: &mut W,
) -> Result<Loaded, ImageFault>
    ensures ok { IfOk result (λ f. IfSome ((W.ledger world.old).names name.now)
        (λ file. IsFirmware header.now file f)) }
    ensures disk { OnOk result (NamesNoDisk header.now) }
    ensures inside { IfOk result (λ f. 1 ≤ header.now.ram_mib → LiesInRam header.now.ram_mib f) }
    ensures kept { OnOk result (CountsSame FirmwareRole (W.ledger world.old) (W.ledger world.new)) }

    ensures refused { IfErr result (λ e. IfSome ((W.ledger world.old).names name.now)
        (λ file. IsImageFault header.now file e)) }
    ensures unopened { IsErrOf result ImageFault.CannotOpen → FailsToOpen (firmware_opening name.now)
        (W.ledger world.old) (W.ledger world.new) }
    ensures unread { IsErrOf result ImageFault.CannotRead
        → Rose (at (W.ledger world.old).faults FirmwareRole)
        (at (W.ledger world.new).faults FirmwareRole) }

    ensures openings { OpensFront (W.ledger world.old).openings (W.ledger world.new).openings
        (firmware_opening name.now ∷ []) }
    ensures opened { OnOk result (Opens (W.ledger world.old).openings
        (W.ledger world.new).openings (firmware_opening name.now ∷ [])) }
    ensures opening_kept { (IsErrOf result ImageFault.CannotOpen → ⊥)
        → (W.ledger world.new).opening_faults ≡ (W.ledger world.old).opening_faults }
    ensures source_kept { (IsErrOf result ImageFault.CannotRead → ⊥)
        → at (W.ledger world.new).faults FirmwareRole ≡ at (W.ledger world.old).faults FirmwareRole }
    ensures balanced { Balanced FirmwareRole (W.ledger world.old) (W.ledger world.new) }
    ensures rest { W.ledger world.new
        ≡ only_opening FirmwareRole (W.ledger world.old) (W.ledger world.new) }
{
    match read_file(alloc, Role::Firmware, name, FIRMWARE_LIMIT, world) {
        Ok(file) => image_of(alloc, header, &file),
        Err(FileFault::CannotOpen) => Err(ImageFault::CannotOpen),
        Err(FileFault::CannotRead) => Err(ImageFault::CannotRead),
        Err(FileFault::TooLong) => Err(ImageFault::Bad(LoadError::TooLong)),
        Err(FileFault::NoMemory) => Err(ImageFault::NoMemory),
    }
}
