//! A session over the accepted part of a log.

ghost use Rattle.std.specs.Prelude.{◌≡◌, ◌≤◌, length};
ghost use Rattle.elf_load.specs.Load.{LiesInRam};
ghost use Rattle.event_log.specs.HeaderFormat.{IsHeader};
ghost use Rattle.board.specs.Reset.{start_of};
ghost use Rattle.reverse_seek.specs.Backing.{backing};
ghost use Rattle.reverse_seek.specs.Script.{first_place};
ghost use Rattle.monitor.specs.Serving.{heard, written};
ghost use Rattle.monitor.specs.Debugging.{Debugs, DebugLeaves, ended_as};

use crate::sessions::{SessionEnd, session};
use board::Steps;
use elf_load::Loaded;
use event_log::Header;
use log_order::Refusal;
use outside::{Careful, Image, Sink, Source};
use reverse_seek::{OpenTrouble, Timeline};
use std::alloc::Global;
use std::sync::ledger::Ledger;

/// How a session over a log ended.
#[derive(Debug, Drop)]
pub enum DebugEnd {
    /// The session is done, and the log was accepted whole.
    Done,
    /// The session is done, and what comes after the accepted part is refused.
    Refused(Refusal),
    /// The source of the commands failed.
    ReadFault,
    /// The sink of the answers failed.
    WriteFault,
    /// More commands came than a session reads.
    TooMuchInput,
    /// The disk's image failed.
    ImageFault,
    NoMemory,
}

/// How it ends, by the session's end and the log's refusal.
fn ended(end: SessionEnd, refusal: Option<Refusal>) -> DebugEnd
    ensures { result ≡ ended_as end refusal }
{
    match end {
        SessionEnd::Done => match refusal {
            None => DebugEnd::Done,
            Some(refusal) => DebugEnd::Refused(refusal),
        },
        SessionEnd::ReadFault => DebugEnd::ReadFault,
        SessionEnd::WriteFault => DebugEnd::WriteFault,
        SessionEnd::TooMuchInput => DebugEnd::TooMuchInput,
        SessionEnd::ImageFault => DebugEnd::ImageFault,
        SessionEnd::NoMemory => DebugEnd::NoMemory,
    }
}

/// Holds a session over the accepted part of a log, whose header was read and whose firmware was
/// loaded, and gives the disk's image back. A log that is refused gives a session too, and the
/// refusal comes after it.
pub fn debug_log<D: Image, I: Source, S: Sink, L: Ledger>(
    alloc: Global,
    header: &Header,
    log: Vec<u8>,
    firmware: &Loaded,
    image: D,
    input: &mut I,
    out: &mut Careful<S>,
    steps: &mut Steps<L>,
) -> (DebugEnd, D)
    requires header { IsHeader header.now }
    requires firmware { LiesInRam header.now.ram_mib firmware.now }
    requires log { first_place ≤ length log.items }
    requires disk { D.size image ≡ header.now.disk_len }
    ensures session { Debugs (start_of header.now firmware.now) log.items result.0
        (heard (I.left input.old) (I.faults input.old))
        (heard (I.left input.new) (I.faults input.new))
        (written (S.taken out.old) (S.faults out.old))
        (written (S.taken out.new) (S.faults out.new)) }
    ensures image { DebugLeaves result.0
        (backing (D.content image) (D.size image) (D.faults image))
        (backing (D.content result.1) (D.size result.1) (D.faults result.1)) }
    ensures role { S.role out.new ≡ S.role out.old }
{
    let opened = Timeline::open(alloc, header, log, firmware, image, steps);
    let (mut timeline, refusal) = match opened {
        Ok(opened) => opened,
        Err(OpenTrouble::ImageFailed(image)) => return (DebugEnd::ImageFault, image),
        Err(OpenTrouble::NoMemory(image)) => return (DebugEnd::NoMemory, image),
    };
    let end = ended(session(alloc, &mut timeline, input, out, steps), refusal);
    (end, timeline.finish())
}
