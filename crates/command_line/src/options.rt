//! The options that the words so far gave.
ghost use Rattle.std.specs.Prelude.{◌≡◌, option_map, option_copied};
ghost use Rattle.command_line.specs.Number.{number_in};
ghost use Rattle.command_line.specs.Words.{key_of, is_replay, go_together, with_value, with_option, at_end, given_none};
ghost use Rattle.command_line.specs.Line.{seen_line, seen_given, seen_key};

use crate::icount::{Icount, icount_value, name};
use crate::line::{Line, RecordWords, ReplayWords};
use crate::number::number;

// What each number may be at most, and what it is where it isn't given.
const RAM_MIB_MAX: u64 = 64;

const RAM_MIB_DEFAULT: u8 = 16;

const BUDGET_MAX: u64 = 1 << 40;

const BUDGET_DEFAULT: u64 = 1_000_000_000;

const SLICE_MAX: u64 = 65_536;

const SLICE_DEFAULT: u32 = 10_000;

/// What each option gave, where it was there.
#[derive(Clone, Copy, Debug)]
pub(crate) struct Options<'a> {
    icount: Option<Icount<'a>>,
    bios: Option<&'a str>,
    ram_mib: Option<u8>,
    budget: Option<u64>,
    slice: Option<u32>,
}

/// An option, by the word before its value.
#[derive(Clone, Copy, Debug)]
pub(crate) enum OptionKey {
    Icount,
    Bios,
    Ram,
    Budget,
    Slice,
}

fn ram_mib(text: &str) -> Option<u8>
    ensures { result ≡ number_in 1 64 text.now }
{
    Some(number(text, 1, RAM_MIB_MAX)? as u8)
}

fn slice(text: &str) -> Option<u32>
    ensures { result ≡ number_in 1 65536 text.now }
{
    Some(number(text, 1, SLICE_MAX)? as u32)
}

impl<'a> Options<'a> {
    /// No option yet.
    pub(crate) fn none() -> Self
        ensures { seen_given result ≡ given_none }
    {
        Options {
            icount: None,
            bios: None,
            ram_mib: None,
            budget: None,
            slice: None,
        }
    }

    fn is_replay(&self) -> bool
        ensures { result ≡ is_replay (seen_given self.now).icount }
    {
        matches!(self.icount, Some(Icount::Replay { .. }))
    }

    /// A replay takes the budget and the slice from its log.
    fn go_together(&self) -> bool
        ensures { result ≡ go_together (seen_given self.now) }
    {
        !self.is_replay() || self.budget.is_none() && self.slice.is_none()
    }

    /// The option that the word names, where it may still come.
    pub(crate) fn key(&self, word: &str) -> Option<OptionKey>
        ensures { option_map seen_key result ≡ key_of (seen_given self.now) word.now }
    {
        match word {
            "-icount" if self.icount.is_none() => Some(OptionKey::Icount),
            "-bios" if self.bios.is_none() => Some(OptionKey::Bios),
            "-m" if self.ram_mib.is_none() => Some(OptionKey::Ram),
            "-budget" if self.budget.is_none() && !self.is_replay() => Some(OptionKey::Budget),
            "-slice" if self.slice.is_none() && !self.is_replay() => Some(OptionKey::Slice),
            _ => None,
        }
    }

    /// The options with this value, where it is one of the key's.
    fn with_value(self, key: OptionKey, value: &'a str) -> Option<Options<'a>>
        ensures { option_map seen_given result
            ≡ with_value (seen_given self.entry) (seen_key key) value.now }
    {
        match key {
            OptionKey::Icount => Some(Options {
                icount: Some(icount_value(value)?),
                ..self
            }),
            OptionKey::Bios => Some(Options {
                bios: Some(name(value)?),
                ..self
            }),
            OptionKey::Ram => Some(Options {
                ram_mib: Some(ram_mib(value)?),
                ..self
            }),
            OptionKey::Budget => Some(Options {
                budget: Some(number(value, 1, BUDGET_MAX)?),
                ..self
            }),
            OptionKey::Slice => Some(Options {
                slice: Some(slice(value)?),
                ..self
            }),
        }
    }

    /// The same, where the options then go together.
    pub(crate) fn with(self, key: OptionKey, value: &'a str) -> Option<Options<'a>>
        ensures { option_map seen_given result
            ≡ with_option (seen_given self.entry) (seen_key key) value.now }
    {
        let more = self.with_value(key, value)?;
        if more.go_together() { Some(more) } else { None }
    }

    /// What the words are, if they end here.
    pub(crate) fn at_end(&self) -> Line<'a>
        ensures { seen_line result ≡ at_end (seen_given self.now) }
    {
        match (self.icount, self.bios) {
            (Some(Icount::Record { shift, log }), Some(bios)) => Line::Record(RecordWords {
                shift,
                ram_mib: self.ram_mib.unwrap_or(RAM_MIB_DEFAULT),
                slice: self.slice.unwrap_or(SLICE_DEFAULT),
                budget: self.budget.unwrap_or(BUDGET_DEFAULT),
                log,
                bios,
            }),
            (Some(Icount::Replay { shift, log }), Some(bios)) => Line::Replay(ReplayWords {
                shift,
                ram_mib: self.ram_mib,
                log,
                bios,
            }),
            _ => Line::WordsMissing,
        }
    }
}
