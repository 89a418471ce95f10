//! The header of a log.

ghost use Rattle.std.specs.Prelude.{◌≡◌, ◌++◌, List, ℕ, Result, OnOk, OnErr, IfOk};
ghost use Rattle.event_log.specs.Grammar.{read};
ghost use Rattle.event_log.specs.declared.header.FieldStop.TheVariants.{Cut, Bad};
ghost use Rattle.event_log.specs.declared.rule.Rule.TheVariants.{BadField};
ghost use Rattle.event_log.specs.declared.header.Header.{Header as AHeader};
ghost use Rattle.event_log.specs.declared.parse.ParseError.{ParseError as AParseError};
ghost use Rattle.event_log.specs.HeaderFormat.{header, settings, header_text, IsHeader, HeaderGives, HeaderAnswers};

use crate::fields::{CutShort, digest_at, u8_at, u32_at, u64_at};
use crate::parse::ParseError;
use crate::rule::Rule;
use outside::NoMemory;
use std::alloc::Global;

/// How many bytes a header has.
pub const LENGTH: usize = 98;

/// What a log begins with: `RRV1`.
const VERSION: u32 = 0x52525631;

// Where the fields stand that may be out of range.
const VERSION_AT: u64 = 0;

const RESERVED_AT: u64 = 4;

const SHIFT_AT: u64 = 12;

const RAM_MIB_AT: u64 = 13;

const SLICE_AT: u64 = 14;

const BUDGET_AT: u64 = 18;

// How large they are at most. All but the shift are at least 1.
const MAX_SHIFT: u8 = 10;

const MAX_RAM_MIB: u8 = 64;

const MAX_SLICE: u32 = 65536;

const MAX_BUDGET: u64 = 1 << 40;

/// What a recording began with.
#[derive(Clone, Copy, Debug, PartialEq, Eq)]
pub struct Header {
    /// A turn takes 2^shift nanoseconds; 0 to 10.
    pub shift: u8,
    /// The size of RAM in MiB, 1 to 64.
    pub ram_mib: u8,
    /// How many turns a slice has at most, 1 to 65,536.
    pub slice: u32,
    /// How many turns the recording has at most, 1 to 2^40.
    pub budget: u64,
    /// The SHA-256 digest of the firmware file.
    pub firmware: [u8; 32],
    /// How many bytes the disk has, 0 without a disk.
    pub disk_len: u64,
    /// The SHA-256 digest of the disk's bytes.
    pub disk: [u8; 32],
}

/// Why the fields weren't read: one isn't wholly there, or the one at an offset breaks a rule.
#[derive(Clone, Copy, Debug, PartialEq, Eq)]
pub enum FieldStop {
    Cut,
    Bad(u64, Rule),
}

impl From<CutShort> for FieldStop {
    ghost from_gives = { λ _ e. e ≡ Cut };

    fn from(_error: CutShort) -> FieldStop {
        FieldStop::Cut
    }
}

// The field at the offset is out of range.
fn bad_field(offset: u64) -> FieldStop
    ensures { result ≡ Bad offset BadField }
{
    FieldStop::Bad(offset, Rule::BadField)
}

#[tactic(auto, unfolding(crate::specs::HeaderFormat::header))]
fn header_of(bytes: &[u8]) -> Result<(Header, &[u8]), FieldStop>
    ensures { HeaderGives (λ x. (x.0, x.1.now)) result (read header bytes.now) }
{
    let (version, rest) = u32_at(bytes)?;
    if version != VERSION {
        return Err(bad_field(VERSION_AT));
    }
    let (reserved, rest) = u64_at(rest)?;
    if reserved != 0 {
        return Err(bad_field(RESERVED_AT));
    }
    settings_of(rest)
}

#[tactic(auto, unfolding(crate::specs::HeaderFormat::settings))]
fn settings_of(bytes: &[u8]) -> Result<(Header, &[u8]), FieldStop>
    ensures { HeaderGives (λ x. (x.0, x.1.now)) result (read settings bytes.now) }
{
    let (shift, rest) = u8_at(bytes)?;
    if shift > MAX_SHIFT {
        return Err(bad_field(SHIFT_AT));
    }
    let (ram_mib, rest) = u8_at(rest)?;
    if ram_mib == 0 || ram_mib > MAX_RAM_MIB {
        return Err(bad_field(RAM_MIB_AT));
    }
    let (slice, rest) = u32_at(rest)?;
    if slice == 0 || slice > MAX_SLICE {
        return Err(bad_field(SLICE_AT));
    }
    let (budget, rest) = u64_at(rest)?;
    if budget == 0 || budget > MAX_BUDGET {
        return Err(bad_field(BUDGET_AT));
    }
    let (firmware, rest) = digest_at(rest)?;
    let (disk_len, rest) = u64_at(rest)?;
    let (disk, rest) = digest_at(rest)?;
    let header = Header {
        shift,
        ram_mib,
        slice,
        budget,
        firmware,
        disk_len,
        disk,
    };
    Ok((header, rest))
}

/// The header at the front of the bytes, or the first field out of range. Fewer bytes than a
/// header has are cut, whatever they are.
pub fn read_header(bytes: &[u8]) -> Result<Header, ParseError>
    ensures { HeaderAnswers bytes.now result }
{
    if bytes.len() < LENGTH {
        return Err(ParseError::Cut(0));
    }
    match header_of(bytes) {
        Ok((header, _)) => Ok(header),
        Err(FieldStop::Cut) => unreachable!(),
        Err(FieldStop::Bad(offset, rule)) => Err(ParseError::Bad { offset, rule }),
    }
}

/// The bytes determine what is answered of them.
pub fn one_header()
    ensures { (bytes : List ℕ) (one other : Result AHeader AParseError)
        → HeaderAnswers bytes one → HeaderAnswers bytes other → one ≡ other }
{}

/// The header's bytes.
#[tactic(auto, unfolding(crate::specs::HeaderFormat::header_text))]
pub fn header_bytes(alloc: Global, header: &Header) -> Result<Vec<u8>, NoMemory>
    ensures { IfOk result (λ v. v.items ≡ header_text header.now) }
{
    let mut out = Vec::new(alloc);
    out.extend_from_slice(&VERSION.to_be_bytes())?;
    out.extend_from_slice(&0u64.to_be_bytes())?;
    out.push(header.shift)?;
    out.push(header.ram_mib)?;
    out.extend_from_slice(&header.slice.to_be_bytes())?;
    out.extend_from_slice(&header.budget.to_be_bytes())?;
    out.extend_from_slice(&header.firmware)?;
    out.extend_from_slice(&header.disk_len.to_be_bytes())?;
    out.extend_from_slice(&header.disk)?;
    Ok(out)
}

/// Appends the header's spelling.
pub fn put_header(alloc: Global, header: &Header, out: &mut Vec<u8>) -> Result<(), NoMemory>
    requires { IsHeader header.now }
    ensures ok { OnOk result (out.new.items ≡ out.old.items ++ header_text header.now) }
    ensures err { OnErr result (out.new.items ≡ out.old.items) }
{
    let bytes = header_bytes(alloc, header)?;
    out.extend_from_slice(&bytes)
}
