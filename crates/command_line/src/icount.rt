//! The value of `-icount`: its settings, parted by commas.
ghost use Rattle.std.specs.Prelude.{◌≡◌, length, option_map, option_copied, option_and_then};
ghost use Rattle.std.specs.List.{slice_split};
ghost use Rattle.command_line.specs.Icount.{name_of, mode_of, with_setting, with_part, with_parts, is_comma, whole, icount_of};
ghost use Rattle.command_line.specs.Number.{number_in};
ghost use Rattle.command_line.specs.Line.{seen_icount, seen_mode, seen_settings};

use crate::number::number;

const SHIFT_MAX: u64 = 10;

/// What a value of `-icount` asks for.
#[derive(Clone, Copy, Debug)]
pub(crate) enum Icount<'a> {
    Record { shift: u8, log: &'a str },
    Replay { shift: Option<u8>, log: &'a str },
}

/// What `rr` says is done with the log.
#[derive(Clone, Copy, Debug)]
enum Mode {
    Record,
    Replay,
}

/// What its keys so far gave.
#[derive(Clone, Copy, Debug)]
struct Settings<'a> {
    shift: Option<u8>,
    mode: Option<Mode>,
    log: Option<&'a str>,
}

/// A name isn't empty.
pub(crate) fn name(text: &str) -> Option<&str>
    ensures { option_copied result ≡ name_of text.now }
{
    if text.is_empty() { None } else { Some(text) }
}

fn shift(text: &str) -> Option<u8>
    ensures { result ≡ number_in 0 10 text.now }
{
    Some(number(text, 0, SHIFT_MAX)? as u8)
}

fn mode_value(text: &str) -> Option<Mode>
    ensures { option_map seen_mode result ≡ mode_of text.now }
{
    match text {
        "record" => Some(Mode::Record),
        "replay" => Some(Mode::Replay),
        _ => None,
    }
}

fn with_setting<'a>(settings: Settings<'a>, key: &str, value: &'a str) -> Option<Settings<'a>>
    ensures { option_map seen_settings result
        ≡ with_setting (seen_settings settings.entry) key.now value.now }
{
    match key {
        "shift" if settings.shift.is_none() => Some(Settings {
            shift: Some(shift(value)?),
            ..settings
        }),
        "rr" if settings.mode.is_none() => Some(Settings {
            mode: Some(mode_value(value)?),
            ..settings
        }),
        "rrfile" if settings.log.is_none() => Some(Settings {
            log: Some(name(value)?),
            ..settings
        }),
        _ => None,
    }
}

fn with_part<'a>(settings: Settings<'a>, part: &'a str) -> Option<Settings<'a>>
    ensures { option_map seen_settings result ≡ with_part (seen_settings settings.entry) part.now }
{
    let (key, value) = part.split_once('=')?;
    with_setting(settings, key, value)
}

fn with_parts<'a>(settings: Settings<'a>, parts: &'a str) -> Option<Settings<'a>>
    ensures { option_map seen_settings result
        ≡ with_parts (seen_settings settings.entry) (slice_split is_comma parts.now) }
{
    match parts.split_once(',') {
        None => with_part(settings, parts),
        Some((part, rest)) => with_parts(with_part(settings, part)?, rest),
    }
}

fn whole<'a>(settings: Settings<'a>) -> Option<Icount<'a>>
    ensures { option_map seen_icount result ≡ whole (seen_settings settings.entry) }
{
    match (settings.mode?, settings.log?) {
        (Mode::Record, log) => Some(Icount::Record {
            shift: settings.shift?,
            log,
        }),
        (Mode::Replay, log) => Some(Icount::Replay {
            shift: settings.shift,
            log,
        }),
    }
}

/// What the value asks for, where it is one.
pub(crate) fn icount_value(value: &str) -> Option<Icount<'_>>
    ensures { option_map seen_icount result ≡ icount_of value.now }
{
    let none = Settings {
        shift: None,
        mode: None,
        log: None,
    };
    whole(with_parts(none, value)?)
}
