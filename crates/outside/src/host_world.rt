//! The world of a process: files, standard streams and the system's clock. It tells no bytes.
ghost use Rattle.std.specs.Prelude.{◌≡◌, ◌∷◌, Some, None, IsErrOf, OnOk, option_map, find, string_bytes};
ghost use Rattle.std.specs.Str.{bytes_eq};
ghost use Rattle.outside.specs.declared.openings.Opening.TheVariants as opening;
ghost use Rattle.outside.specs.Host.{source_left, source_faults, outlet_faults, image_content, image_size, image_faults, host_ledger, host_sizes};

use crate::counters::Counters;
use crate::files::FileId;
use crate::past::{Past, told_name};
use crate::std_streams::{keep_standard_streams, standard_input};
use crate::{
    Failed, FileImage, FileSink, FileSource, Image, NoMemory, OpenError, Opening, Role, Sink,
    Source, StdClock, StdSink, StdSource, World,
};

/// A source of the host. `Nothing` is at its end, and tells so.
#[derive(Drop)]
pub enum HostSource {
    Standard(StdSource),
    File(FileSource),
    Nothing,
}

impl HostSource {
    fn faults(&self) -> u64
        ensures { result ≡ source_faults self.now }
    {
        match self {
            HostSource::Standard(source) => source.faults(),
            HostSource::File(source) => source.faults(),
            HostSource::Nothing => 0,
        }
    }

    fn left(&self) -> Option<Past<u8>>
        ensures { result ≡ source_left self.now }
    {
        match self {
            HostSource::Standard(_) | HostSource::File(_) => None,
            HostSource::Nothing => Some(Past::new()),
        }
    }
}

impl Source for HostSource {
    ghost left = { source_left };

    ghost faults = { source_faults };

    fn read(&mut self, buf: &mut [u8]) -> Result<usize, Failed> {
        match self {
            HostSource::Standard(source) => source.read(buf),
            HostSource::File(source) => source.read(buf),
            HostSource::Nothing => Ok(0),
        }
    }
}

// Where the bytes of a sink go. `Nothing` drops them.
#[derive(Drop)]
enum Outlet {
    Standard(StdSink),
    File(FileSink),
    Nothing,
}

/// A sink of the host, with the role that it was opened for.
#[derive(Drop)]
pub struct HostSink {
    role: Role,
    outlet: Outlet,
}

impl HostSink {
    fn faults(&self) -> u64
        ensures { result ≡ outlet_faults self.now.outlet }
    {
        match &self.outlet {
            Outlet::Standard(sink) => sink.faults(),
            Outlet::File(sink) => sink.faults(),
            Outlet::Nothing => 0,
        }
    }
}

impl Sink for HostSink {
    ghost role = { λ k. Some k.role };

    ghost taken = { λ _. None };

    ghost faults = { λ k. outlet_faults k.outlet };

    fn write(&mut self, bytes: &[u8]) -> Result<usize, Failed> {
        match &mut self.outlet {
            Outlet::Standard(sink) => sink.write(bytes),
            Outlet::File(sink) => sink.write(bytes),
            Outlet::Nothing => Ok(bytes.len()),
        }
    }
}

/// An image of the host. `Nothing` has length 0, and tells so.
#[derive(Drop)]
pub enum HostImage {
    File(FileImage),
    Nothing,
}

impl HostImage {
    fn faults(&self) -> u64
        ensures { result ≡ image_faults self.now }
    {
        match self {
            HostImage::File(image) => image.faults(),
            HostImage::Nothing => 0,
        }
    }
}

impl Image for HostImage {
    ghost content = { image_content };

    ghost size = { image_size };

    ghost faults = { image_faults };

    fn len(&self) -> u64 {
        match self {
            HostImage::File(image) => image.len(),
            HostImage::Nothing => 0,
        }
    }

    fn read_at(&mut self, at: u64, buf: &mut [u8]) -> Result<(), Failed> {
        match self {
            HostImage::File(image) => image.read_at(at, buf),
            HostImage::Nothing => Ok(()),
        }
    }
}

/// An image's name, and the length that it had when it was first opened.
#[derive(Drop)]
struct NamedLength {
    name: String,
    len: u64,
}

/// The world of a process. It tells nothing of names, standard input and devices given back. An
/// image that is opened again with another length is a fault of opening, and so is a sink in a
/// regular file that was opened to be read, by whichever name.
#[derive(Drop)]
pub struct HostWorld {
    rt: HostRuntime,
    counters: Counters,
    lengths: Vec<NamedLength>,
    // the regular files that were opened to be read
    read: Vec<FileId>,
}

fn length_of(lengths: &[NamedLength], name: &str) -> Option<u64>
    ensures { result
        ≡ option_map (λ l. l.len)
        (find (λ l. bytes_eq (string_bytes l.name) name.now) lengths.now) }
{
    lengths
        .iter()
        .find(|known| known.name.as_str() == name)
        .map(|known| known.len)
}

impl HostWorld {
    ghost use Rattle.outside.specs.Causes.{one_more};
    ghost use Rattle.outside.specs.Ledger.{opening_fails, IsNew, KeepsSizes};

    /// The world of this process, where nothing was opened yet. Standard streams that are closed
    /// are opened on the null device, for as long as the process runs.
    pub fn new(rt: HostRuntime) -> Self
        ensures { IsNew (host_ledger result) }
    {
        keep_standard_streams(rt);
        HostWorld {
            rt,
            counters: Counters::new(),
            lengths: Vec::new(rt.alloc()),
            read: Vec::new(rt.alloc()),
        }
    }

    // Counts an opening that failed.
    fn refuse(&mut self, opening: Opening) -> OpenError
        ensures answer { result ≡ OpenError.Failed }
        ensures counted { self.new ≡ record self.old {
          counters = record self.old.counters {
            opening_faults = one_more self.old.counters.opening_faults;
            refused = opening ∷ self.old.counters.refused;
          };
        } }
    {
        self.counters.opening_failed(opening);
        OpenError::Failed
    }

    // Keeps which file is read, where it is a regular one.
    fn note_read(&mut self, id: Option<FileId>) -> Result<(), NoMemory>
        ensures { self.new ≡ record self.old { read = self.new.read } }
    {
        if let Some(id) = id {
            self.read.push(id)?;
        }
        Ok(())
    }

    // Keeps the length of an image. Where it had another, opening failed.
    fn note_length(&mut self, name: &str, len: u64) -> Result<(), OpenError>
        ensures ok { OnOk result (host_ledger self.new ≡ host_ledger self.old) }
        ensures size { OnOk result (host_sizes self.new name.now ≡ Some len) }
        ensures failed { IsErrOf result OpenError.Failed
            → host_ledger self.new ≡ opening_fails (host_ledger self.old) (opening.Disk (Some name.now)) }
        ensures memory { IsErrOf result OpenError.NoMemory
            → host_ledger self.new ≡ host_ledger self.old }
        ensures sizes { KeepsSizes (host_sizes self.old) (host_sizes self.new) }
    {
        match length_of(&self.lengths, name) {
            Some(known) if known == len => Ok(()),
            Some(_) => Err(self.refuse(Opening::Disk(told_name(Some(name))))),
            None => {
                let name = String::from_str(self.rt.alloc(), name)?;
                match self.lengths.insert(0, NamedLength { name, len }) {
                    Ok(()) => Ok(()),
                    Err(_) => Err(OpenError::NoMemory),
                }
            }
        }
    }
}

impl World for HostWorld {
    type Source = HostSource;

    type Sink = HostSink;

    type Image = HostImage;

    type Clock = StdClock;

    ghost ledger = { host_ledger };

    ghost sizes = { host_sizes };

    fn source(&mut self, role: Role, name: Option<&str>) -> Result<HostSource, OpenError> {
        let (source, id) = match (name, role) {
            (Some(name), _) => match FileSource::open(self.rt, name) {
                Ok(source) => {
                    let id = source.id();
                    (HostSource::File(source), id)
                }
                Err(Failed) => {
                    return Err(self.refuse(Opening::Source(role, told_name(Some(name)))));
                }
            },
            (None, Role::ConsoleIn) => {
                let source = StdSource::new(self.rt);
                (HostSource::Standard(source), standard_input(self.rt))
            }
            (None, _) => (HostSource::Nothing, None),
        };
        self.note_read(id)?;
        self.counters.open_source(role, name);
        Ok(source)
    }

    fn sink(&mut self, role: Role, name: Option<&str>) -> Result<HostSink, OpenError> {
        let outlet = match (name, role) {
            (Some(name), _) => match FileSink::create(self.rt, name, &self.read) {
                Ok(sink) => Outlet::File(sink),
                Err(Failed) => {
                    return Err(self.refuse(Opening::Sink(role, told_name(Some(name)))));
                }
            },
            (None, Role::ConsoleOut) => Outlet::Standard(StdSink::output(self.rt)),
            (None, Role::Messages) => Outlet::Standard(StdSink::errors(self.rt)),
            (None, _) => Outlet::Nothing,
        };
        self.counters.open_sink(role, name);
        Ok(HostSink { role, outlet })
    }

    fn image(&mut self, name: Option<&str>) -> Result<HostImage, OpenError> {
        let image = match name {
            Some(name) => match FileImage::open(self.rt, name) {
                Ok(image) => {
                    self.note_read(image.id())?;
                    self.note_length(name, image.len())?;
                    HostImage::File(image)
                }
                Err(Failed) => return Err(self.refuse(Opening::Disk(told_name(Some(name))))),
            },
            None => HostImage::Nothing,
        };
        self.counters.open_disk(name);
        Ok(image)
    }

    fn clock(&mut self) -> StdClock {
        self.counters.open_clock();
        StdClock::new(self.rt)
    }

    fn take_source(&mut self, role: Role, source: HostSource) {
        self.counters
            .give_source_back(role, source.faults(), source.left());
    }

    fn take_sink(&mut self, role: Role, sink: HostSink) {
        self.counters.give_back(role, sink.faults());
    }

    fn take_image(&mut self, image: HostImage) {
        self.counters.give_disk_back(image.faults());
    }

    fn take_clock(&mut self, clock: StdClock) {
        self.counters.give_clock_back();
    }
}
