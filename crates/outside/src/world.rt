//! Where the devices of a run come from, and where they are given back.
ghost use Rattle.std.specs.Prelude.{◌≡◌, ℕ, List, Some, IsSome, IfOk, OnOk, IsErrOf, option_copied};
ghost use Rattle.std.specs.declared.option.Option.{Option};
ghost use Rattle.outside.specs.declared.openings.Opening.TheVariants as opening;
ghost use Rattle.outside.specs.Roles.{IsFor};
ghost use Rattle.outside.specs.Ledger.{Ledger, held, image_held, opens, opens_sink, opening_fails, source_back, sink_back, opens_disk, disk_back, opens_clock, clock_back, KeepsSizes, HasSize, StartsEmpty};

use crate::{HostClock, Image, Role, Sink, Source};
use std::alloc::AllocError;

/// Why a device was not opened.
#[derive(Clone, Copy, Debug, PartialEq, Eq)]
pub enum OpenError {
    /// The name can't be opened. This comes for a given name alone.
    Failed,
    /// Memory was refused.
    NoMemory,
}

impl From<AllocError> for OpenError {
    ghost use Rattle.outside.specs.declared.world.OpenError.TheVariants.{NoMemory};

    ghost from_gives = { λ _ e. e ≡ NoMemory };

    fn from(_error: AllocError) -> OpenError {
        OpenError::NoMemory
    }
}

/// Opens devices, and takes each of them back. It keeps a ledger, of which each call changes what
/// its clause names and nothing else:
///
/// - how often the devices of a role that were given back failed, those of the disk, and openings;
/// - for each role, the disk and the clock how many were opened and how many were given back;
/// - all openings in their order, and those that failed, each with its role and its name;
/// - what a name and standard input hold, what the source of a role last given back had left, and
///   what the sink and the clock last given back had taken and given. A world may tell nothing of
///   these.
///
/// What a name or standard input holds stays, also where a sink is opened or written under that
/// name. A device that is opened has not failed yet.
pub trait World {
    type Source: Source + Send;

    type Sink: Sink + Send;

    type Image: Image + Send;

    type Clock: HostClock + Send;

    /// What the world tells of itself.
    ghost ledger: { Self → Ledger };

    /// The lengths of images by their names, once one was opened.
    ghost sizes: { Self → List ℕ → Option ℕ };

    /// Opens a source. With no name `ConsoleIn` is standard input, and a source of any other role
    /// is at its end.
    fn source(&mut self, role: Role, name: Option<&str>) -> Result<Self::Source, OpenError>
        ensures opened { OnOk result
            (ledger self.new ≡ opens (ledger self.old) role (option_copied name.entry)) }
        ensures holds { IfOk result
            (λ s. Self.Source.left s ≡ held (ledger self.old) role (option_copied name.entry)) }
        ensures fresh { IfOk result (λ s. Self.Source.faults s ≡ 0) }
        // errors
        ensures failed { IsErrOf result OpenError.Failed
            → ledger self.new ≡ opening_fails (ledger self.old) (opening.Source role (option_copied name.entry)) }
        ensures named { IsErrOf result OpenError.Failed → IsSome name.entry }
        ensures memory { IsErrOf result OpenError.NoMemory → ledger self.new ≡ ledger self.old }
        ensures sizes { KeepsSizes (sizes self.old) (sizes self.new) };

    /// Opens a sink. A named file is made empty. With no name `ConsoleOut` is standard output,
    /// `Messages` is standard error, and a sink of any other role drops what it takes.
    fn sink(&mut self, role: Role, name: Option<&str>) -> Result<Self::Sink, OpenError>
        ensures opened { OnOk result (ledger self.new
            ≡ opens_sink (ledger self.old) role (option_copied name.entry)) }
        ensures role { IfOk result (λ k. Self.Sink.role k ≡ Some role) }
        ensures empty { IfOk result (λ k. StartsEmpty (Self.Sink.taken k)) }
        ensures fresh { IfOk result (λ k. Self.Sink.faults k ≡ 0) }
        // errors
        ensures failed { IsErrOf result OpenError.Failed
            → ledger self.new ≡ opening_fails (ledger self.old) (opening.Sink role (option_copied name.entry)) }
        ensures named { IsErrOf result OpenError.Failed → IsSome name.entry }
        ensures memory { IsErrOf result OpenError.NoMemory → ledger self.new ≡ ledger self.old }
        ensures sizes { KeepsSizes (sizes self.old) (sizes self.new) };

    /// Opens an image for the disk. With no name it has length 0. A name that is opened again gives
    /// the same length and bytes, or fails.
    fn image(&mut self, name: Option<&str>) -> Result<Self::Image, OpenError>
        ensures opened { OnOk result
            (ledger self.new ≡ opens_disk (ledger self.old) (option_copied name.entry)) }
        ensures holds { IfOk result
            (λ i. Self.Image.content i ≡ image_held (ledger self.old) (option_copied name.entry)) }
        ensures fresh { IfOk result (λ i. Self.Image.faults i ≡ 0) }
        ensures size { IfOk result
            (λ i. HasSize (sizes self.new) (option_copied name.entry) (Self.Image.size i)) }
        // errors
        ensures failed { IsErrOf result OpenError.Failed
            → ledger self.new ≡ opening_fails (ledger self.old) (opening.Disk (option_copied name.entry)) }
        ensures named { IsErrOf result OpenError.Failed → IsSome name.entry }
        ensures memory { IsErrOf result OpenError.NoMemory → ledger self.new ≡ ledger self.old }
        ensures sizes { KeepsSizes (sizes self.old) (sizes self.new) };

    /// Makes a clock, which counts as opened.
    fn clock(&mut self) -> Self::Clock
        ensures opened { ledger self.new ≡ opens_clock (ledger self.old) }
        ensures fresh { StartsEmpty (Self.Clock.gave result) }
        ensures sizes { KeepsSizes (sizes self.old) (sizes self.new) };

    /// Takes a source of the role back, and adds its count of faults to the role's.
    fn take_source(&mut self, role: Role, source: Self::Source)
        ensures back { ledger self.new ≡ source_back (ledger self.old) role
            (Self.Source.faults source) (Self.Source.left source) }
        ensures sizes { KeepsSizes (sizes self.old) (sizes self.new) };

    /// Takes a sink of the role back, and adds its count of faults to the role's. One that was
    /// opened for another role can't be given back under this one.
    fn take_sink(&mut self, role: Role, sink: Self::Sink)
        requires role { IsFor (Self.Sink.role sink) role }
        ensures back { ledger self.new
            ≡ sink_back (ledger self.old) role (Self.Sink.faults sink) (Self.Sink.taken sink) }
        ensures sizes { KeepsSizes (sizes self.old) (sizes self.new) };

    /// Takes an image back, and adds its count of faults to the disk's.
    fn take_image(&mut self, image: Self::Image)
        ensures back { ledger self.new ≡ disk_back (ledger self.old) (Self.Image.faults image) }
        ensures sizes { KeepsSizes (sizes self.old) (sizes self.new) };

    /// Takes a clock back.
    fn take_clock(&mut self, clock: Self::Clock)
        ensures back { ledger self.new ≡ clock_back (ledger self.old) (Self.Clock.gave clock) }
        ensures sizes { KeepsSizes (sizes self.old) (sizes self.new) };
}
