//! Files of the host. They tell no bytes.
ghost use Rattle.std.specs.Prelude.{◌≡◌, ℕ, None, IfOk};

use crate::faults::count_fault;
use crate::{Failed, Image, Sink, Source};
use std::fs::{File, Metadata, OpenOptions};
use std::io::{Read, Write};
use std::marker::Model;
use std::os::unix::fs::{FileExt, MetadataExt};

/// Which file of the host it is, whatever the names that lead to it.
#[derive(Clone, Copy, Debug, PartialEq, Eq)]
pub(crate) struct FileId {
    device: u64,
    number: u64,
}

impl FileId {
    /// The file of this metadata, where it is a regular one.
    pub(crate) fn of(metadata: &Metadata) -> Option<FileId> {
        if metadata.is_file() {
            Some(FileId {
                device: metadata.dev(),
                number: metadata.ino(),
            })
        } else {
            None
        }
    }

    // The file of an open one, where it is a regular one and the host says which.
    fn of_open(file: &File) -> Option<FileId> {
        match file.metadata() {
            Ok(metadata) => FileId::of(&metadata),
            Err(_) => None,
        }
    }
}

/// A file that is read from its start. Each error counts. Contracts see it as its count of faults.
#[derive(Drop)]
pub struct FileSource {
    file: File,
    faults: u64,
}

impl Model for FileSource {
    ghost Value = { ℕ };

    ghost view = { λ s. s.faults };
}

impl FileSource {
    /// Opens the file of that name.
    pub fn open(rt: HostRuntime, name: &str) -> Result<FileSource, Failed>
        ensures { IfOk result (λ s. s ≡ 0) }
    {
        match File::open(&rt, name) {
            Ok(file) => Ok(FileSource { file, faults: 0 }),
            Err(_) => Err(Failed),
        }
    }

    /// Which regular file it is.
    pub(crate) fn id(&self) -> Option<FileId> {
        FileId::of_open(&self.file)
    }

    pub(crate) fn faults(&self) -> u64
        ensures { result ≡ self.now }
    {
        self.faults
    }
}

impl Source for FileSource {
    ghost left = { λ _. None };

    ghost faults = { λ s. s };

    fn read(&mut self, buf: &mut [u8]) -> Result<usize, Failed> {
        match self.file.read(buf) {
            Ok(count) => Ok(count),
            Err(_) => Err(count_fault(&mut self.faults)),
        }
    }
}

/// A file that is made empty and written from its start. Each error counts, and so does a write
/// that takes nothing. Contracts see it as its count of faults.
#[derive(Drop)]
pub struct FileSink {
    file: File,
    faults: u64,
}

impl Model for FileSink {
    ghost Value = { ℕ };

    ghost view = { λ k. k.faults };
}

impl FileSink {
    /// Makes a file of that name, or makes the one that is there empty, unless it is one of these.
    pub(crate) fn create(rt: HostRuntime, name: &str, kept: &[FileId]) -> Result<FileSink, Failed>
        ensures { IfOk result (λ k. k ≡ 0) }
    {
        let opened = OpenOptions::new().write(true).create(true).open(&rt, name);
        let Ok(file) = opened else {
            return Err(Failed);
        };
        match FileId::of_open(&file) {
            Some(id) if kept.contains(&id) => Err(Failed),
            Some(_) if file.set_len(0).is_err() => Err(Failed),
            _ => Ok(FileSink { file, faults: 0 }),
        }
    }

    pub(crate) fn faults(&self) -> u64
        ensures { result ≡ self.now }
    {
        self.faults
    }
}

impl Sink for FileSink {
    ghost role = { λ _. None };

    ghost taken = { λ _. None };

    ghost faults = { λ k. k };

    fn write(&mut self, bytes: &[u8]) -> Result<usize, Failed> {
        match self.file.write(bytes) {
            Ok(count) if count > 0 => Ok(count),
            _ => Err(count_fault(&mut self.faults)),
        }
    }
}

/// A file that is read at any place, with the length that it had when it was opened. Each error
/// counts. Contracts see it as its length and its count of faults.
#[derive(Drop)]
pub struct FileImage {
    file: File,
    len: u64,
    faults: u64,
}

impl Model for FileImage {
    ghost use Rattle.outside.specs.Extent.{Extent};

    ghost Value = { Extent };

    ghost view = { λ i. record { size = i.len; faults = i.faults } };
}

impl FileImage {
    /// Opens the file of that name, and asks for its length.
    pub fn open(rt: HostRuntime, name: &str) -> Result<FileImage, Failed>
        ensures { IfOk result (λ i. i.faults ≡ 0) }
    {
        let Ok(file) = File::open(&rt, name) else {
            return Err(Failed);
        };
        match file.metadata() {
            Ok(metadata) => Ok(FileImage {
                file,
                len: metadata.len(),
                faults: 0,
            }),
            Err(_) => Err(Failed),
        }
    }

    /// Which regular file it is.
    pub(crate) fn id(&self) -> Option<FileId> {
        FileId::of_open(&self.file)
    }

    pub(crate) fn faults(&self) -> u64
        ensures { result ≡ self.now.faults }
    {
        self.faults
    }
}

impl Image for FileImage {
    ghost content = { λ _. None };

    ghost size = { λ i. i.size };

    ghost faults = { λ i. i.faults };

    fn len(&self) -> u64 {
        self.len
    }

    fn read_at(&mut self, at: u64, buf: &mut [u8]) -> Result<(), Failed> {
        match self.file.read_exact_at(buf, at) {
            Ok(()) => Ok(()),
            Err(_) => Err(count_fault(&mut self.faults)),
        }
    }
}
