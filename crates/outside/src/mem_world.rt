//! A world in memory, for tests.
ghost use Rattle.std.specs.Prelude.{◌≡◌, ◌↔◌, [], ◌∷◌, Some, None, List, ℕ, length, OnOk, OnErr, IfOk, IsSome, IsNone, IsTrue, IsErrOf, find, option_copied, string_bytes, if◌then◌else◌};
ghost use Rattle.std.specs.Str.{bytes_eq};
ghost use Rattle.outside.specs.Roles.{IsFor, at, put, same, each};
ghost use Rattle.outside.specs.Ledger.{IsNew};
ghost use Rattle.outside.specs.declared.openings.Opening.TheVariants as opening;

use crate::counters::Counters;
use crate::past::{told_bytes, told_name};
use crate::{
    ListClock, MemImage, MemSink, MemSource, NoMemory, OpenError, Opening, PerRole, Role, World,
};
use std::alloc::Global;
use std::mem;

/// A file of a world in memory.
#[derive(Drop)]
struct MemFile {
    name: String,
    bytes: Vec<u8>,
}

/// A world in memory. It tells all that it holds, and its devices and openings fail on demand.
///
/// Files are those that were added: a source or an image of another name fails. A sink may have any
/// name, and no name holds what it takes.
#[derive(Drop)]
pub struct MemWorld {
    alloc: Global,
    counters: Counters,
    // the newest file of a name stands first
    files: Vec<MemFile>,
    input: Vec<u8>,
    failing: PerRole<Vec<u64>>,
    failing_disk: Vec<u64>,
    failing_opens: Vec<u64>,
    named_opens: u64,
    clock_values: Vec<u64>,
    last: PerRole<Vec<u8>>,
    last_clock: ListClock,
}

fn file_of<'a>(files: &'a [MemFile], name: &str) -> Option<&'a MemFile>
    ensures { option_copied result ≡ find (λ f. bytes_eq (string_bytes f.name) name.now) files.now }
{
    files.iter().find(|file| file.name.as_str() == name)
}

fn no_lists<T: Drop>(alloc: Global) -> PerRole<Vec<T>>
    ensures { each (λ v. v.items) result ≡ same [] }
{
    PerRole {
        console_in: Vec::new(alloc),
        console_out: Vec::new(alloc),
        log_in: Vec::new(alloc),
        log_out: Vec::new(alloc),
        net_in: Vec::new(alloc),
        net_out: Vec::new(alloc),
        firmware: Vec::new(alloc),
        messages: Vec::new(alloc),
    }
}

impl MemWorld {
    ghost use Rattle.outside.specs.MemWorlds.{mem_ledger, mem_plan};

    /// A world with no file and an empty standard input, where nothing fails.
    pub fn new(alloc: Global) -> Self
        ensures new { IsNew (mem_ledger result) }
        ensures names { (name : List ℕ) → (mem_ledger result).names name ≡ None }
        ensures input { (mem_ledger result).input ≡ Some [] }
        ensures left { (mem_ledger result).left ≡ same None }
        ensures last { (mem_ledger result).last ≡ same (Some []) }
        ensures clock { (mem_ledger result).clock ≡ Some [] }
        ensures plan { mem_plan result ≡ record {
          failing = same [];
          failing_disk = [];
          failing_opens = [];
          named_opens = 0;
          clock_values = [];
        } }
    {
        MemWorld {
            alloc,
            counters: Counters::new(),
            files: Vec::new(alloc),
            input: Vec::new(alloc),
            failing: no_lists(alloc),
            failing_disk: Vec::new(alloc),
            failing_opens: Vec::new(alloc),
            named_opens: 0,
            clock_values: Vec::new(alloc),
            last: no_lists(alloc),
            last_clock: ListClock::new(Vec::new(alloc)),
        }
    }

    /// Adds a file, in the place of one of that name.
    pub fn add_file(&mut self, name: &str, bytes: Vec<u8>) -> Result<(), NoMemory>
        ensures names { OnOk result
            ((n : List ℕ) → (mem_ledger self.new).names n
            ≡ (if bytes_eq name.now n then Some bytes.items else (mem_ledger self.old).names n)) }
        ensures rest { mem_ledger self.new
            ≡ record (mem_ledger self.old) { names = (mem_ledger self.new).names } }
        ensures plan { mem_plan self.new ≡ mem_plan self.old }
        ensures err { OnErr result (mem_ledger self.new ≡ mem_ledger self.old) }
    {
        let name = String::from_str(self.alloc, name)?;
        self.files.insert(0, MemFile { name, bytes })?;
        Ok(())
    }

    /// What standard input holds.
    pub fn set_input(&mut self, bytes: Vec<u8>)
        ensures input { mem_ledger self.new
            ≡ record (mem_ledger self.old) { input = Some bytes.items } }
        ensures plan { mem_plan self.new ≡ mem_plan self.old }
    {
        self.input = bytes;
    }

    /// The calls that fail of each source and sink of the role that is opened from now on. Each
    /// device numbers its calls from 0.
    pub fn set_failing(&mut self, role: Role, calls: Vec<u64>)
        ensures plan { mem_plan self.new ≡ record (mem_plan self.old) {
          failing = put (mem_plan self.old).failing role calls.items;
        } }
        ensures ledger { mem_ledger self.new ≡ mem_ledger self.old }
    {
        self.failing.put(role, calls);
    }

    /// The opens that fail. Those that have a name are numbered from 0, over all roles and the
    /// disk.
    pub fn set_failing_opens(&mut self, opens: Vec<u64>)
        ensures plan { mem_plan self.new
            ≡ record (mem_plan self.old) { failing_opens = opens.items } }
        ensures ledger { mem_ledger self.new ≡ mem_ledger self.old }
    {
        self.failing_opens = opens;
    }

    /// The reads that fail of each image that is opened from now on. Each numbers them from 0.
    pub fn set_failing_disk(&mut self, reads: Vec<u64>)
        ensures plan { mem_plan self.new
            ≡ record (mem_plan self.old) { failing_disk = reads.items } }
        ensures ledger { mem_ledger self.new ≡ mem_ledger self.old }
    {
        self.failing_disk = reads;
    }

    /// What each clock gives that is made from now on.
    pub fn set_clock(&mut self, values: Vec<u64>)
        ensures plan { mem_plan self.new
            ≡ record (mem_plan self.old) { clock_values = values.items } }
        ensures ledger { mem_ledger self.new ≡ mem_ledger self.old }
    {
        self.clock_values = values;
    }

    /// What the role's sink last given back had taken, and nothing where none was.
    pub fn written(&self, role: Role) -> &[u8]
        ensures { at (mem_ledger self.now).last role ≡ Some result.now }
    {
        self.last.at(role)
    }

    /// How many devices of the role were opened.
    pub fn opened(&self, role: Role) -> u64
        ensures { result ≡ at (mem_ledger self.now).opened role }
    {
        *self.counters.opened.at(role)
    }
}

impl MemWorld {
    ghost use Rattle.outside.specs.MemWorlds.{mem_ledger, mem_plan, open_fails, found};
    ghost use Rattle.outside.specs.Ledger.{held, image_held};

    // Whether an open of that name is to fail.
    fn open_fails(&self, name: Option<&str>) -> bool
        ensures { result ≡ open_fails (mem_plan self.now) (option_copied name.entry) }
    {
        name.is_some() && self.failing_opens.contains(&self.named_opens)
    }

    // The bytes that a name holds.
    fn file_bytes(&self, name: &str) -> Option<&[u8]>
        ensures { option_copied result ≡ (mem_ledger self.now).names name.now }
    {
        match file_of(&self.files, name) {
            Some(file) => Some(&file.bytes),
            None => None,
        }
    }

    // What a source holds, and none where it can't be opened.
    fn held(&self, role: Role, name: Option<&str>) -> Option<&[u8]>
        ensures bytes { option_copied result ≡ found (mem_plan self.now) (option_copied name.entry)
            (held (mem_ledger self.now) role (option_copied name.entry)) }
        ensures none { IsNone result → IsSome name.entry }
    {
        if self.open_fails(name) {
            return None;
        }
        match (name, role) {
            (Some(name), _) => self.file_bytes(name),
            (None, Role::ConsoleIn) => Some(&self.input),
            (None, _) => Some(&[]),
        }
    }

    // What an image holds, and none where it can't be opened.
    fn image_held(&self, name: Option<&str>) -> Option<&[u8]>
        ensures bytes { option_copied result ≡ found (mem_plan self.now) (option_copied name.entry)
            (image_held (mem_ledger self.now) (option_copied name.entry)) }
        ensures none { IsNone result → IsSome name.entry }
    {
        if self.open_fails(name) {
            return None;
        }
        match name {
            Some(name) => self.file_bytes(name),
            None => Some(&[]),
        }
    }
}

impl MemWorld {
    ghost use Rattle.outside.specs.MemWorlds.{named_after};
    ghost use Rattle.outside.specs.Causes.{one_more};

    // Counts an open, where it has a name.
    fn note_name(&mut self, name: Option<&str>)
        ensures { self.new ≡ record self.old {
          named_opens = named_after self.old.named_opens (option_copied name.entry);
        } }
    {
        if name.is_some() {
            self.named_opens = self.named_opens.saturating_add(1);
        }
    }

    // Counts an open of a name that failed.
    fn refuse(&mut self, opening: Opening) -> OpenError
        ensures answer { result ≡ OpenError.Failed }
        ensures counted { self.new ≡ record self.old {
          named_opens = one_more self.old.named_opens;
          counters = record self.old.counters {
            opening_faults = one_more self.old.counters.opening_faults;
            refused = opening ∷ self.old.counters.refused;
          };
        } }
    {
        self.named_opens = self.named_opens.saturating_add(1);
        self.counters.opening_failed(opening);
        OpenError::Failed
    }
}

impl World for MemWorld {
    type Source = MemSource;

    type Sink = MemSink;

    type Image = MemImage;

    type Clock = ListClock;

    ghost use Rattle.outside.specs.MemWorlds.{mem_ledger, mem_plan, mem_sizes, open_fails, found, Numbers};
    ghost use Rattle.outside.specs.Ledger.{held, image_held, opens, opens_sink, opening_fails, source_back, sink_back, opens_disk, disk_back, opens_clock, clock_back, KeepsSizes, HasSize};
    ghost use Rattle.outside.specs.Fakes.{uncalled, clock_gave};

    ghost ledger = { mem_ledger };

    ghost sizes = { mem_sizes };

    /// Fails where the open is to fail or no file has the name. The source gives as much as fits.
    fn source(&mut self, role: Role, name: Option<&str>) -> Result<MemSource, OpenError>
        ensures opened { OnOk result
            (mem_ledger self.new ≡ opens (mem_ledger self.old) role (option_copied name.entry)) }
        ensures holds { IfOk result
            (λ s. Some s.left ≡ held (mem_ledger self.old) role (option_copied name.entry)) }
        ensures fresh { IfOk result (λ s. s.calls.faults ≡ 0) }
        ensures failed { IsErrOf result OpenError.Failed
            → mem_ledger self.new ≡ opening_fails (mem_ledger self.old) (opening.Source role (option_copied name.entry)) }
        ensures named { IsErrOf result OpenError.Failed → IsSome name.entry }
        ensures memory { IsErrOf result OpenError.NoMemory
            → mem_ledger self.new ≡ mem_ledger self.old }
        ensures sizes { KeepsSizes (mem_sizes self.old) (mem_sizes self.new) }
        // what this world does beside
        ensures missing { found (mem_plan self.old) (option_copied name.entry)
            (held (mem_ledger self.old) role (option_copied name.entry)) ≡ None
            → result ≡ Err OpenError.Failed }
        ensures present { IsErrOf result OpenError.Failed
            → found (mem_plan self.old) (option_copied name.entry)
            (held (mem_ledger self.old) role (option_copied name.entry)) ≡ None }
        ensures chunks { IfOk result (λ s. s.chunks ≡ []) }
        ensures calls { IfOk result
            (λ s. s.calls ≡ uncalled (at (mem_plan self.old).failing role)) }
        ensures numbered { Numbers (option_copied name.entry)
            (mem_plan self.old) (mem_plan self.new) result }
    {
        let Some(held) = self.held(role, name) else {
            return Err(self.refuse(Opening::Source(role, told_name(name))));
        };
        let bytes = held.to_vec(self.alloc)?;
        let failing = self.failing.at(role).to_vec(self.alloc)?;
        self.note_name(name);
        self.counters.open_source(role, name);
        Ok(MemSource::new(bytes, Vec::new(self.alloc), failing))
    }

    /// Fails where the open is to fail, and at no other name.
    fn sink(&mut self, role: Role, name: Option<&str>) -> Result<MemSink, OpenError>
        ensures opened { OnOk result (mem_ledger self.new
            ≡ opens_sink (mem_ledger self.old) role (option_copied name.entry)) }
        ensures role { IfOk result (λ k. k.role ≡ Some role) }
        ensures empty { IfOk result (λ k. k.kept ≡ []) }
        ensures fresh { IfOk result (λ k. k.calls.faults ≡ 0) }
        ensures failed { IsErrOf result OpenError.Failed
            → mem_ledger self.new ≡ opening_fails (mem_ledger self.old) (opening.Sink role (option_copied name.entry)) }
        ensures named { IsErrOf result OpenError.Failed → IsSome name.entry }
        ensures memory { IsErrOf result OpenError.NoMemory
            → mem_ledger self.new ≡ mem_ledger self.old }
        ensures sizes { KeepsSizes (mem_sizes self.old) (mem_sizes self.new) }
        // what this world does beside
        ensures fails { IsTrue (open_fails (mem_plan self.old) (option_copied name.entry))
            ↔ IsErrOf result OpenError.Failed }
        ensures calls { IfOk result
            (λ k. k.calls ≡ uncalled (at (mem_plan self.old).failing role)) }
        ensures numbered { Numbers (option_copied name.entry)
            (mem_plan self.old) (mem_plan self.new) result }
    {
        if self.open_fails(name) {
            return Err(self.refuse(Opening::Sink(role, told_name(name))));
        }
        let failing = self.failing.at(role).to_vec(self.alloc)?;
        self.note_name(name);
        self.counters.open_sink(role, name);
        Ok(MemSink::opened(self.alloc, role, failing))
    }

    /// Fails where the open is to fail or no file has the name.
    fn image(&mut self, name: Option<&str>) -> Result<MemImage, OpenError>
        ensures opened { OnOk result
            (mem_ledger self.new ≡ opens_disk (mem_ledger self.old) (option_copied name.entry)) }
        ensures holds { IfOk result
            (λ i. Some i.bytes ≡ image_held (mem_ledger self.old) (option_copied name.entry)) }
        ensures fresh { IfOk result (λ i. i.calls.faults ≡ 0) }
        ensures size { IfOk result
            (λ i. HasSize (mem_sizes self.new) (option_copied name.entry) (length i.bytes)) }
        ensures failed { IsErrOf result OpenError.Failed
            → mem_ledger self.new ≡ opening_fails (mem_ledger self.old) (opening.Disk (option_copied name.entry)) }
        ensures named { IsErrOf result OpenError.Failed → IsSome name.entry }
        ensures memory { IsErrOf result OpenError.NoMemory
            → mem_ledger self.new ≡ mem_ledger self.old }
        ensures sizes { KeepsSizes (mem_sizes self.old) (mem_sizes self.new) }
        // what this world does beside
        ensures missing { found (mem_plan self.old) (option_copied name.entry)
            (image_held (mem_ledger self.old) (option_copied name.entry)) ≡ None
            → result ≡ Err OpenError.Failed }
        ensures present { IsErrOf result OpenError.Failed
            → found (mem_plan self.old) (option_copied name.entry)
            (image_held (mem_ledger self.old) (option_copied name.entry)) ≡ None }
        ensures calls { IfOk result (λ i. i.calls ≡ uncalled (mem_plan self.old).failing_disk) }
        ensures numbered { Numbers (option_copied name.entry)
            (mem_plan self.old) (mem_plan self.new) result }
    {
        let Some(held) = self.image_held(name) else {
            return Err(self.refuse(Opening::Disk(told_name(name))));
        };
        let bytes = held.to_vec(self.alloc)?;
        let failing = self.failing_disk.to_vec(self.alloc)?;
        self.note_name(name);
        self.counters.open_disk(name);
        Ok(MemImage::new(bytes, failing))
    }

    /// The clock starts with the first value. Where memory for a copy of the values is refused they
    /// go with this clock, and a later one gives 0.
    fn clock(&mut self) -> ListClock
        ensures opened { mem_ledger self.new ≡ opens_clock (mem_ledger self.old) }
        ensures fresh { clock_gave result ≡ Some [] }
        ensures sizes { KeepsSizes (mem_sizes self.old) (mem_sizes self.new) }
        // what this world does beside
        ensures values { result ≡ record { values = (mem_plan self.old).clock_values; calls = 0 } }
        ensures plan { mem_plan self.new
            ≡ record (mem_plan self.old) { clock_values = (mem_plan self.new).clock_values } }
    {
        self.counters.open_clock();
        let values = match self.clock_values.to_vec(self.alloc) {
            Ok(values) => values,
            Err(_) => mem::replace(&mut self.clock_values, Vec::new(self.alloc)),
        };
        ListClock::new(values)
    }

    fn take_source(&mut self, role: Role, source: MemSource)
        ensures back { mem_ledger self.new
            ≡ source_back (mem_ledger self.old) role source.calls.faults (Some source.left) }
        ensures sizes { KeepsSizes (mem_sizes self.old) (mem_sizes self.new) }
        ensures plan { mem_plan self.new ≡ mem_plan self.old }
    {
        let left = told_bytes(source.left());
        self.counters
            .give_source_back(role, source.faults(), Some(left));
    }

    fn take_sink(&mut self, role: Role, sink: MemSink)
        requires role { IsFor sink.role role }
        ensures back { mem_ledger self.new
            ≡ sink_back (mem_ledger self.old) role sink.calls.faults (Some sink.kept) }
        ensures sizes { KeepsSizes (mem_sizes self.old) (mem_sizes self.new) }
        ensures plan { mem_plan self.new ≡ mem_plan self.old }
    {
        self.counters.give_back(role, sink.faults());
        self.last.put(role, sink.into_bytes());
    }

    fn take_image(&mut self, image: MemImage)
        ensures back { mem_ledger self.new ≡ disk_back (mem_ledger self.old) image.calls.faults }
        ensures sizes { KeepsSizes (mem_sizes self.old) (mem_sizes self.new) }
        ensures plan { mem_plan self.new ≡ mem_plan self.old }
    {
        self.counters.give_disk_back(image.faults());
    }

    fn take_clock(&mut self, clock: ListClock)
        ensures back { mem_ledger self.new ≡ clock_back (mem_ledger self.old) (clock_gave clock) }
        ensures sizes { KeepsSizes (mem_sizes self.old) (mem_sizes self.new) }
        ensures plan { mem_plan self.new ≡ mem_plan self.old }
    {
        self.counters.give_clock_back();
        self.last_clock = clock;
    }
}
