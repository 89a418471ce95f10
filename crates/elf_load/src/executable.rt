//! An ELF executable.

ghost use Rattle.std.specs.Prelude.{◌≡◌, ◌≢◌, ◌+◌, ◌*◌, ◌≤◌, ◌<◌, ◌^◌, ℕ, length, Some, None, IfOk};
ghost use Rattle.elf_load.specs.declared.error.LoadError.TheVariants.{NoMemory};
ghost use Rattle.elf_load.specs.Fields.{e_phoff, e_phnum};
ghost use Rattle.elf_load.specs.Rules.{first_broken, file_rules, is_entry, has_table};
ghost use Rattle.elf_load.specs.Segments.{header, HasBytes, first_broken_by, pieces_of};
ghost use Rattle.elf_load.specs.Load.{executable, Loads};

use crate::NoMemory;
use crate::error::LoadError;
use crate::fields::{
    E_ENTRY, E_MACHINE, E_PHENTSIZE, E_PHNUM, E_PHOFF, E_TYPE, EI_CLASS, EI_DATA, FILE_HEADER,
    PROGRAM_HEADER, u16_at, u32_at,
};
use crate::loader::lies_in;
use crate::pieces::{Loaded, Pieces};
use crate::program_header::ProgramHeader;
use std::alloc::Global;

// Values of the fields, in the gABI's names.
const ELFCLASS32: u8 = 1;

const ELFDATA2LSB: u8 = 1;

const ET_EXEC: u16 = 2;

const EM_RISCV: u16 = 243;

/// How many program headers a file may have.
const MOST_HEADERS: u16 = 64;

/// The first rule that the file header breaks.
fn broken(file: &[u8], ram: u64) -> Option<LoadError>
    requires { ram < 2 ^ 60 }
    ensures rule { result ≡ first_broken (file_rules file.now ram) }
    ensures named { result ≢ Some NoMemory }
    ensures header { result ≡ None → 52 ≤ length file.now }
    ensures table { result ≡ None
        → e_phoff file.now + 32 * e_phnum file.now ≤ length file.now }
{
    if file.len() < FILE_HEADER {
        Some(LoadError::Cut)
    } else if file[EI_CLASS] != ELFCLASS32 {
        Some(LoadError::Class)
    } else if file[EI_DATA] != ELFDATA2LSB {
        Some(LoadError::Encoding)
    } else if u16_at(file, E_TYPE) != ET_EXEC {
        Some(LoadError::FileType)
    } else if u16_at(file, E_MACHINE) != EM_RISCV {
        Some(LoadError::Machine)
    } else if !is_entry(ram, u32_at(file, E_ENTRY)) {
        Some(LoadError::Entry)
    } else if !has_table(file) {
        Some(LoadError::Headers)
    } else {
        None
    }
}

/// Whether the hart can begin at this address.
fn is_entry(ram: u64, entry: u32) -> bool
    requires { ram < 2 ^ 60 }
    ensures { result ≡ is_entry ram entry }
{
    lies_in(ram, entry, 1) && entry % 4 == 0
}

/// Whether the program headers are of the known size, few enough and within the file.
fn has_table(file: &[u8]) -> bool
    requires { 52 ≤ length file.now }
    ensures { result ≡ has_table file.now }
{
    let count = u16_at(file, E_PHNUM);
    let end = u32_at(file, E_PHOFF) as usize + PROGRAM_HEADER * count as usize;
    u16_at(file, E_PHENTSIZE) as usize == PROGRAM_HEADER
        && count <= MOST_HEADERS
        && end <= file.len()
}

/// The first rule that a segment breaks.
#[tactic(auto, using(crate::proofs::Scan::none_broken_yet, crate::proofs::Scan::next_broken))]
fn broken_segment(file: &[u8], ram: u64) -> Option<LoadError>
    requires ram { ram < 2 ^ 60 }
    requires header { 52 ≤ length file.now }
    requires table { e_phoff file.now + 32 * e_phnum file.now ≤ length file.now }
    ensures rule { result ≡ first_broken_by file.now ram (e_phnum file.now) }
    ensures named { result ≢ Some NoMemory }
{
    for k in 0..u16_at(file, E_PHNUM) as usize {
        let rule = header_at(file, k).broken(file, ram);
        if rule.is_some() {
            return rule;
        }
    }
    None
}

/// The pieces of all segments, in order.
#[tactic(auto, using(crate::proofs::Scan::no_pieces, crate::proofs::Scan::next_piece))]
fn pieces(alloc: Global, file: &[u8]) -> Result<Pieces, NoMemory>
    requires header { 52 ≤ length file.now }
    requires table { e_phoff file.now + 32 * e_phnum file.now ≤ length file.now }
    requires bytes { (k : ℕ) → k < e_phnum file.now → HasBytes file.now (header file.now k) }
    ensures { IfOk result (λ pieces. pieces ≡ pieces_of file.now (e_phnum file.now)) }
{
    let mut pieces = Pieces::new(alloc);
    for k in 0..u16_at(file, E_PHNUM) as usize {
        header_at(file, k).add(alloc, file, &mut pieces)?;
    }
    Ok(pieces)
}

/// The program header with this number.
fn header_at(file: &[u8], k: usize) -> ProgramHeader
    requires header { 52 ≤ length file.now }
    requires table { e_phoff file.now + 32 * (k + 1) ≤ length file.now }
    ensures { result ≡ header file.now k }
{
    ProgramHeader::at(file, u32_at(file, E_PHOFF) as usize + PROGRAM_HEADER * k)
}

/// Loads an executable. All segments are judged before memory is asked.
pub(crate) fn load_executable(alloc: Global, file: &[u8], ram: u64) -> Result<Loaded, LoadError>
    requires { ram < 2 ^ 60 }
    ensures { Loads (executable file.now ram) result }
{
    if let Some(rule) = broken(file, ram) {
        return Err(rule);
    }
    if let Some(rule) = broken_segment(file, ram) {
        return Err(rule);
    }
    match pieces(alloc, file) {
        Ok(pieces) => Ok(Loaded {
            entry: u32_at(file, E_ENTRY),
            pieces,
        }),
        Err(_) => Err(LoadError::NoMemory),
    }
}
