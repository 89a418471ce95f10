//! Lines of words, and what they are.

use super::*;
use std::alloc::Global;
use std::test::Fail;

fn words(alloc: Global, line: &str) -> Result<Vec<String>, Fail> {
    let mut words = Vec::new(alloc);
    for word in line.split(' ') {
        words.push(String::from_str(alloc, word)?)?;
    }
    Ok(words)
}

#[test]
fn a_line_gives_each_option_or_its_default(rt: HostRuntime) -> Result<(), Fail> {
    let defaults = RecordWords {
        shift: 0,
        ram_mib: 16,
        slice: 10_000,
        budget: 1_000_000_000,
        log: "a=b",
        bios: "-m",
    };
    let short = words(rt.alloc(), "-icount shift=0,rr=record,rrfile=a=b -bios -m")?;
    assert_eq!(rt; read_line(&short), Line::Record(defaults));

    let line =
        "-slice 65536 -m 64 -bios fw -budget 1099511627776 -icount rrfile=x,shift=10,rr=record";
    let full = words(rt.alloc(), line)?;
    let asked = RecordWords {
        shift: 10,
        ram_mib: 64,
        slice: 65_536,
        budget: 1 << 40,
        log: "x",
        bios: "fw",
    };
    assert_eq!(rt; read_line(&full), Line::Record(asked));
    Ok(())
}

#[test]
fn a_replay_gives_what_its_log_must_have(rt: HostRuntime) -> Result<(), Fail> {
    for (line, shift, ram_mib) in [
        ("-icount rr=replay,rrfile=a -bios b", None, None),
        ("-bios b -icount rrfile=a,rr=replay", None, None),
        ("-icount rr=replay,rrfile=a -m 1 -bios b", None, Some(1)),
        ("-bios b -icount rr=replay,rrfile=a,shift=0", Some(0), None),
        (
            "-bios b -m 16 -icount shift=10,rrfile=a,rr=replay",
            Some(10),
            Some(16),
        ),
        (
            "-m 64 -icount rrfile=a,shift=1,rr=replay -bios b",
            Some(1),
            Some(64),
        ),
    ] {
        let given = words(rt.alloc(), line)?;
        let asked = ReplayWords {
            shift,
            ram_mib,
            log: "a",
            bios: "b",
        };
        assert_eq!(rt; read_line(&given), Line::Replay(asked), "at {line}");
    }
    Ok(())
}

#[test]
fn a_line_that_leaves_the_grammar_is_refused_at_its_first_bad_word(
    rt: HostRuntime,
) -> Result<(), Fail> {
    for (line, bad) in [
        ("-icount shift=11,rr=record,rrfile=a -bios b", 1),
        ("-icount shift=01,rr=record,rrfile=a -bios b", 1),
        ("-icount shift=1,rr=record,rrfile=a, -bios b", 1),
        ("-icount shift=1,rr=check,rrfile=a -bios b", 1),
        ("-icount rr=record,rrfile=a -bios b", 1),
        ("-icount rr=replay,rrfile=a,rr=replay -bios b", 1),
        ("-icount rr=replay,rrfile=a -budget 1 -bios b", 2),
        ("-icount rr=replay,rrfile=a -bios b -slice 1", 4),
        ("-budget 1 -icount rr=replay,rrfile=a -bios b", 3),
        ("-bios b -slice 1 -icount rr=replay,rrfile=a", 5),
        ("-icount shift=1,rr=record,rrfile= -bios b", 1),
        ("-bios b -bios c", 2),
        ("-bios b -m 0 -x", 3),
        ("-m +1", 1),
        ("b", 0),
        ("--help -bios", 1),
        ("-bios b --help", 2),
        ("demo 0", 1),
        ("demo 2001", 1),
        ("demo 01", 1),
        ("demo x", 1),
        ("demo 5 x", 2),
        ("debug  -bios b", 1),
        ("debug a -m b", 2),
        ("debug a -bios  b", 3),
        ("debug a -bios b c", 4),
        ("check ", 1),
        ("check a b", 2),
        ("check a -bios ", 3),
        ("check a -bios b -m", 4),
        ("events ", 1),
        ("events a b", 2),
        ("-bios b check", 2),
    ] {
        let given = words(rt.alloc(), line)?;
        assert_eq!(rt; read_line(&given), Line::BadWord(bad), "at {line}");
    }
    Ok(())
}

#[test]
fn a_line_that_ends_early_misses_words(rt: HostRuntime) -> Result<(), Fail> {
    for line in [
        "-icount shift=1,rr=record,rrfile=a",
        "-bios b",
        "-bios b -icount",
        "-icount rr=replay,rrfile=a -m 1",
        "demo",
        "debug",
        "debug a",
        "debug a -bios",
        "check",
        "check a",
        "check a -bios",
        "events",
    ] {
        let given = words(rt.alloc(), line)?;
        assert_eq!(rt; read_line(&given), Line::WordsMissing, "at {line}");
    }
    assert_eq!(rt; read_line(&[]), Line::WordsMissing);
    Ok(())
}

#[test]
fn help_is_read_alone(rt: HostRuntime) -> Result<(), Fail> {
    for word in ["--help", "-help", "-h"] {
        let help = words(rt.alloc(), word)?;
        assert_eq!(rt; read_line(&help), Line::Help, "at {word}");
    }
    Ok(())
}

#[test]
fn version_is_read_alone(rt: HostRuntime) -> Result<(), Fail> {
    for word in ["--version", "-version"] {
        let version = words(rt.alloc(), word)?;
        assert_eq!(rt; read_line(&version), Line::Version, "at {word}");
    }
    Ok(())
}

#[test]
fn a_demonstration_gives_its_number_of_letters(rt: HostRuntime) -> Result<(), Fail> {
    for (line, letters) in [("demo 1", 1), ("demo 2000", 2000)] {
        let given = words(rt.alloc(), line)?;
        assert_eq!(rt; read_line(&given), Line::Demo(letters), "at {line}");
        assert_eq!(rt; read_quiet(&given), Line::Demo(letters), "at {line}");
    }
    Ok(())
}

#[test]
fn a_recorded_run_is_named_by_two_words_of_any_kind(rt: HostRuntime) -> Result<(), Fail> {
    let debug = words(rt.alloc(), "debug a -bios b")?;
    let run = RunWords {
        log: "a",
        bios: "b",
    };
    assert_eq!(rt; read_line(&debug), Line::Debug(run));
    assert_eq!(rt; read_quiet(&debug), Line::Debug(run));

    let check = words(rt.alloc(), "check -bios -bios check")?;
    let run = RunWords {
        log: "-bios",
        bios: "check",
    };
    assert_eq!(rt; read_line(&check), Line::Check(run));
    assert_eq!(rt; read_quiet(&check), Line::Check(run));
    Ok(())
}

#[test]
fn events_are_those_of_the_log_that_is_named(rt: HostRuntime) -> Result<(), Fail> {
    let events = words(rt.alloc(), "events a=b")?;
    assert_eq!(rt; read_line(&events), Line::Events("a=b"));
    assert_eq!(rt; read_quiet(&events), Line::Events("a=b"));
    Ok(())
}

#[test]
fn a_quiet_command_begins_with_its_word(rt: HostRuntime) -> Result<(), Fail> {
    for (line, bad) in [
        ("-bios b", 0),
        ("--help", 0),
        ("demo 2001", 1),
        ("debug a b", 2),
        ("check a -bios ", 3),
        ("check a -bios b c", 4),
        ("events a b", 2),
    ] {
        let given = words(rt.alloc(), line)?;
        assert_eq!(rt; read_quiet(&given), Line::BadWord(bad), "at {line}");
    }
    for line in ["demo", "debug a", "check a -bios", "events"] {
        let given = words(rt.alloc(), line)?;
        assert_eq!(rt; read_quiet(&given), Line::WordsMissing, "at {line}");
    }
    assert_eq!(rt; read_quiet(&[]), Line::WordsMissing);
    Ok(())
}
