//! The process's standard streams. They tell no bytes.
ghost use Rattle.std.specs.Prelude.{◌≡◌, ℕ, None};
ghost use Rattle.std.specs.Io.{ReadsAtMost};

use crate::faults::count_fault;
use crate::files::FileId;
use crate::{Failed, Sink, Source};
use std::fs::OpenOptions;
use std::io::{ErrorKind, Read, Stderr, Stdin, Stdout, Write};
use std::marker::Model;
use std::os::fd::{AsRawFd, IntoRawFd};
use std::time::Duration;
use std::{fs, thread};

// How many milliseconds an input that has nothing yet is left alone.
const PAUSE: u64 = 10;

/// Opens each standard stream that is closed on the null device, for as long as the process runs. So
/// no file that is opened later takes its place.
pub(crate) fn keep_standard_streams(rt: HostRuntime) {
    for _ in 0..3 {
        // The system gives the lowest number that is free.
        let opened = OpenOptions::new()
            .read(true)
            .write(true)
            .open(&rt, "/dev/null");
        match opened {
            Ok(null) if null.as_raw_fd() <= 2 => {
                let _ = null.into_raw_fd();
            }
            _ => return,
        }
    }
}

/// Which regular file standard input is.
pub(crate) fn standard_input(rt: HostRuntime) -> Option<FileId> {
    match fs::metadata(&rt, "/dev/stdin") {
        Ok(metadata) => FileId::of(&metadata),
        Err(_) => None,
    }
}

/// Standard input. An input that doesn't block and has nothing yet is waited for. Each error counts.
/// Contracts see it as its count of faults.
#[derive(Drop)]
pub struct StdSource {
    rt: HostRuntime,
    stream: Stdin,
    faults: u64,
}

impl Model for StdSource {
    ghost Value = { ℕ };

    ghost view = { λ s. s.faults };
}

impl StdSource {
    /// Standard input.
    pub fn new(rt: HostRuntime) -> Self
        ensures { result ≡ 0 }
    {
        StdSource {
            rt,
            stream: rt.stdin(),
            faults: 0,
        }
    }

    pub(crate) fn faults(&self) -> u64
        ensures { result ≡ self.now }
    {
        self.faults
    }
}

impl Source for StdSource {
    ghost left = { λ _. None };

    ghost faults = { λ s. s };

    fn read(&mut self, buf: &mut [u8]) -> Result<usize, Failed> {
        match read_waiting(self.rt, &mut self.stream, buf) {
            Ok(count) => Ok(count),
            Err(_) => Err(count_fault(&mut self.faults)),
        }
    }
}

// Reads what the stream has next, and waits while it has nothing yet.
fn read_waiting(rt: HostRuntime, stream: &mut Stdin, buf: &mut [u8]) -> Result<usize, Failed>
    ensures { ReadsAtMost result buf.new }
{
    for _ in 0..u64::MAX {
        match stream.read(buf) {
            Ok(count) => return Ok(count),
            Err(error) if error.kind() == ErrorKind::WouldBlock => {
                thread::sleep(&rt, Duration::from_millis(PAUSE));
            }
            Err(_) => return Err(Failed),
        }
    }
    Err(Failed)
}

#[derive(Drop)]
enum Stream {
    Output(Stdout),
    Errors(Stderr),
}

/// Standard output or standard error. Each error counts, and so does a write that takes nothing.
/// Contracts see it as its count of faults.
#[derive(Drop)]
pub struct StdSink {
    stream: Stream,
    faults: u64,
}

impl Model for StdSink {
    ghost Value = { ℕ };

    ghost view = { λ k. k.faults };
}

impl StdSink {
    /// Standard output.
    pub fn output(rt: HostRuntime) -> Self
        ensures { result ≡ 0 }
    {
        StdSink {
            stream: Stream::Output(rt.stdout()),
            faults: 0,
        }
    }

    /// Standard error.
    pub fn errors(rt: HostRuntime) -> Self
        ensures { result ≡ 0 }
    {
        StdSink {
            stream: Stream::Errors(rt.stderr()),
            faults: 0,
        }
    }

    pub(crate) fn faults(&self) -> u64
        ensures { result ≡ self.now }
    {
        self.faults
    }
}

impl Sink for StdSink {
    ghost role = { λ _. None };

    ghost taken = { λ _. None };

    ghost faults = { λ k. k };

    fn write(&mut self, bytes: &[u8]) -> Result<usize, Failed> {
        let written = match &mut self.stream {
            Stream::Output(stream) => stream.write(bytes),
            Stream::Errors(stream) => stream.write(bytes),
        };
        match written {
            Ok(count) if count > 0 => Ok(count),
            _ => Err(count_fault(&mut self.faults)),
        }
    }
}
