//! A session: lines are read, and each is answered before more is read.

ghost use Rattle.std.specs.Prelude.{◌≡◌, ◌≤◌, ◌<◌, ◌+◌, false};
ghost use Rattle.monitor.specs.Serving.{Serves, Reads, halted_as, closed_as, desk_of, Says, written, heard, most};
ghost use Rattle.monitor.specs.Serving.{TextLeaves, SessionLeaves};
ghost use Rattle.monitor.specs.Session.{at_end};

use crate::desk::{Halt, Keeping};
use board::Steps;
use outside::{Bytes, Careful, Image, Sink, Source};
use reverse_seek::Timeline;
use std::alloc::Global;
use std::sync::ledger::Ledger;

/// How a session ended.
#[derive(Clone, Copy, Debug, PartialEq, Eq)]
pub enum SessionEnd {
    /// By `quit`, or at the end of the input.
    Done,
    /// The input's source failed.
    ReadFault,
    /// The sink of the answers failed.
    WriteFault,
    /// After 2^20 bytes, none of which ended the session, one more came.
    TooMuchInput,
    /// The disk's image failed.
    ImageFault,
    NoMemory,
}

/// How many bytes are read at once.
const PIECE: usize = 256;

/// The most bytes that a session reads.
const MOST: usize = 1 << 20;

/// Why nothing was read.
#[derive(Clone, Copy, Debug, PartialEq, Eq)]
pub enum ReadStop {
    Failed,
    NoMemory,
}

/// The next bytes, at most so many, and none at the end.
fn read_piece<S: Source>(alloc: Global, input: &mut S, room: usize) -> Result<Bytes, ReadStop>
    requires { 0 < room }
    ensures { Reads room (heard (S.left input.old) (S.faults input.old))
        (heard (S.left input.new) (S.faults input.new)) result }
{
    let mut piece = Vec::new(alloc);
    if piece.resize(room, 0).is_err() {
        return Err(ReadStop::NoMemory);
    }
    match input.read(&mut piece) {
        Ok(count) => {
            piece.truncate(count);
            Ok(Bytes::from_vec(piece))
        }
        Err(_) => Err(ReadStop::Failed),
    }
}

/// How many bytes are asked for after so many: one, once as many as may come came.
fn room_after(count: usize) -> usize
    requires { count ≤ most }
    ensures some { 0 < result }
    ensures within { count + result ≤ most + 1 }
    ensures rest { count < most → count + result ≤ most }
{
    if count == MOST {
        return 1;
    }
    PIECE.min(MOST - count)
}

/// How a session ends that can't go on.
fn halted(halt: Halt) -> SessionEnd
    ensures { result ≡ halted_as halt }
{
    match halt {
        Halt::WriteFault => SessionEnd::WriteFault,
        Halt::ImageFault => SessionEnd::ImageFault,
        Halt::NoMemory => SessionEnd::NoMemory,
    }
}

/// How a session ends whose input has ended.
fn closed(closed: Result<(), Halt>) -> SessionEnd
    ensures { result ≡ closed_as closed }
{
    match closed {
        Ok(()) => SessionEnd::Done,
        Err(halt) => halted(halt),
    }
}

/// Answers a last line that ends with the input.
fn close<D: Image, S: Sink, L: Ledger>(
    alloc: Global,
    keeping: &mut Keeping,
    timeline: &mut Timeline<D>,
    out: &mut Careful<S>,
    steps: &mut Steps<L>,
) -> Result<(), Halt>
    requires { keeping.old.quit ≡ false }
    ensures says { Says (
      at_end timeline.old.script (desk_of timeline.old keeping.old),
      desk_of timeline.new keeping.new,
    ) result
        (desk_of timeline.new keeping.new)
        (written (S.taken out.old) (S.faults out.old))
        (written (S.taken out.new) (S.faults out.new)) }
    ensures script { timeline.new.script ≡ timeline.old.script }
    ensures image { TextLeaves result timeline.old.image timeline.new.image }
    ensures role { S.role out.new ≡ S.role out.old }
{
    if keeping.line.is_empty() {
        return Ok(());
    }
    keeping.end_line(alloc, timeline, out, steps)
}

/// Reads lines and answers each before more is read, up to `quit` or the end of the input, of
/// which it reads at most 2^20 bytes.
///
/// What it writes is the transcript of the bytes that it read. A line ends with a line feed, before
/// which a carriage return doesn't count; a last line without a line feed is answered too.
pub fn session<D: Image, I: Source, S: Sink, L: Ledger>(
    alloc: Global,
    timeline: &mut Timeline<D>,
    input: &mut I,
    out: &mut Careful<S>,
    steps: &mut Steps<L>,
) -> SessionEnd
    requires { timeline.old.at ≡ 0 }
    ensures serves { Serves timeline.old.script result
        (heard (I.left input.old) (I.faults input.old))
        (heard (I.left input.new) (I.faults input.new))
        (written (S.taken out.old) (S.faults out.old))
        (written (S.taken out.new) (S.faults out.new)) }
    ensures script { timeline.new.script ≡ timeline.old.script }
    ensures image { SessionLeaves result timeline.old.image timeline.new.image }
    ensures role { S.role out.new ≡ S.role out.old }
{
    let mut keeping = Keeping::new(alloc);
    let mut count = 0;
    while !keeping.quit {
        let piece = match read_piece(alloc, input, room_after(count)) {
            Ok(piece) => piece,
            Err(ReadStop::Failed) => return SessionEnd::ReadFault,
            Err(ReadStop::NoMemory) => return SessionEnd::NoMemory,
        };
        let bytes = piece.as_slice();
        if bytes.is_empty() {
            return closed(close(alloc, &mut keeping, timeline, out, steps));
        }
        if count == MOST {
            return SessionEnd::TooMuchInput;
        }
        count += bytes.len();
        if let Err(halt) = keeping.take_bytes(alloc, timeline, bytes, out, steps) {
            return halted(halt);
        }
    }
    SessionEnd::Done
}
