//! Fields of a file by their offset (gABI, "ELF Header", for 32 bits).

ghost use Rattle.std.specs.Prelude.{◌≡◌, ◌+◌, ◌≤◌, length};
ghost use Rattle.elf_load.specs.Fields.{u16_at, u32_at};

use byteorder::{ByteOrder, LittleEndian};

pub(crate) const EI_CLASS: usize = 4;

pub(crate) const EI_DATA: usize = 5;

pub(crate) const E_TYPE: usize = 16;

pub(crate) const E_MACHINE: usize = 18;

pub(crate) const E_ENTRY: usize = 24;

pub(crate) const E_PHOFF: usize = 28;

pub(crate) const E_PHENTSIZE: usize = 42;

pub(crate) const E_PHNUM: usize = 44;

/// The size of a file header.
pub(crate) const FILE_HEADER: usize = 52;

/// The size of a program header.
pub(crate) const PROGRAM_HEADER: usize = 32;

/// The little-endian number of two bytes.
pub(crate) fn u16_at(file: &[u8], at: usize) -> u16
    requires { at + 2 ≤ length file.now }
    ensures { result ≡ u16_at file.now at }
{
    LittleEndian::read_u16(&file[at..])
}

/// The little-endian number of four bytes.
pub(crate) fn u32_at(file: &[u8], at: usize) -> u32
    requires { at + 4 ≤ length file.now }
    ensures { result ≡ u32_at file.now at }
{
    LittleEndian::read_u32(&file[at..])
}
