//! What a session keeps, and its answer to each byte.

ghost use Rattle.std.specs.Prelude.{◌≡◌, [], false, IfOk, OnOk, string_bytes};
ghost use Rattle.monitor.specs.Session.{answer as answer_of, whole_line, with_byte, fed, without_return as without_return_of};
ghost use Rattle.monitor.specs.Moves.{AnswerLeaves};
ghost use Rattle.monitor.specs.Serving.{desk_of, Says, TextLeaves, written};

use crate::answers::{self, Unanswered};
use crate::breaks::add_break;
use crate::command::Command;
use crate::dumps::dump;
use crate::parse::parse_line;
use board::Steps;
use outside::{Careful, Image, NoMemory, Sink};
use reverse_seek::Timeline;
use std::alloc::Global;
use std::sync::ledger::Ledger;

/// What a session keeps from one byte to the next.
#[derive(Drop)]
pub struct Keeping {
    /// The breaks, rising.
    pub breaks: Vec<u64>,
    /// The front of a line that isn't whole yet.
    pub line: Vec<u8>,
    /// Whether `quit` came.
    pub quit: bool,
}

/// Why a session can't go on.
#[derive(Clone, Copy, Debug, PartialEq, Eq)]
pub enum Halt {
    WriteFault,
    ImageFault,
    NoMemory,
}

/// A line without the carriage return before its line feed.
#[tactic(auto, using(crate::proofs::Answering::returns))]
fn without_return(line: &[u8]) -> &[u8]
    ensures { result.now ≡ without_return_of line.now }
{
    let count = line.len();
    if count > 0 && line[count - 1] == b'\r' {
        &line[..count - 1]
    } else {
        line
    }
}

impl Keeping {
    /// What it keeps at its beginning.
    pub fn new(alloc: Global) -> Keeping
        ensures breaks { result.breaks.items ≡ [] }
        ensures line { result.line.items ≡ [] }
        ensures quit { result.quit ≡ false }
    {
        Keeping {
            breaks: Vec::new(alloc),
            line: Vec::new(alloc),
            quit: false,
        }
    }

    /// Sets a break, unless it lies past the end.
    fn set_break<D: Image>(
        &mut self,
        alloc: Global,
        timeline: &Timeline<D>,
        n: u64,
    ) -> Result<String, NoMemory>
        ensures { IfOk result (λ s. (string_bytes s, desk_of timeline.now self.new)
            ≡ answer_of timeline.now.script (desk_of timeline.now self.old) (Command.Break n)) }
    {
        let last = timeline.last();
        if n > last {
            return answers::past_end(alloc, n, last);
        }
        add_break(&mut self.breaks, n)?;
        answers::set(alloc, n)
    }

    /// The answer to a command.
    #[tactic(auto, using(crate::proofs::Answering::moving))]
    fn answer<D: Image, L: Ledger>(
        &mut self,
        alloc: Global,
        timeline: &mut Timeline<D>,
        asked: Command,
        steps: &mut Steps<L>,
    ) -> Result<String, Unanswered>
        ensures told { IfOk result (λ s. (string_bytes s, desk_of timeline.new self.new)
            ≡ answer_of timeline.old.script (desk_of timeline.old self.old) asked) }
        ensures script { timeline.new.script ≡ timeline.old.script }
        ensures image { AnswerLeaves result timeline.old.image timeline.new.image }
    {
        match asked {
            Command::InfoReplay => {
                Ok(answers::info_replay(alloc, timeline, self.breaks.as_slice())?)
            }
            Command::InfoRegisters => Ok(timeline.machine().show(alloc)?),
            Command::Break(n) => Ok(self.set_break(alloc, timeline, n)?),
            Command::DeleteBreak => {
                self.breaks.clear();
                Ok(answers::fixed(alloc, "breaks deleted\n")?)
            }
            Command::Seek(n) => answers::seek(alloc, timeline, n, steps),
            Command::StepBack => answers::step_back(alloc, timeline, steps),
            Command::RunBack => answers::run_back(alloc, timeline, self.breaks.as_slice(), steps),
            Command::StepOn => answers::step_on(alloc, timeline, steps),
            Command::RunOn => answers::run_on(alloc, timeline, self.breaks.as_slice(), steps),
            Command::Dump(at, len) => Ok(dump(alloc, timeline.machine(), at, len)?),
            Command::Quit => {
                self.quit = true;
                Ok(String::new(alloc))
            }
            Command::Blank => Ok(String::new(alloc)),
        }
    }

    /// The answer to a line that is whole.
    #[tactic(auto, unfolding(crate::specs::Session::whole_line))]
    fn answer_line<D: Image, L: Ledger>(
        &mut self,
        alloc: Global,
        timeline: &mut Timeline<D>,
        steps: &mut Steps<L>,
    ) -> Result<String, Unanswered>
        ensures told { IfOk result (λ s. (string_bytes s, desk_of timeline.new self.new)
            ≡ whole_line timeline.old.script (desk_of timeline.old self.old)) }
        ensures script { timeline.new.script ≡ timeline.old.script }
        ensures image { AnswerLeaves result timeline.old.image timeline.new.image }
    {
        let asked = parse_line(without_return(self.line.as_slice()));
        self.line.clear();
        match asked {
            Ok(command) => self.answer(alloc, timeline, command, steps),
            Err(error) => Ok(answers::error_text(alloc, error)?),
        }
    }

    /// Answers a line that is whole.
    #[tactic(auto, using(crate::proofs::Answering::saying))]
    pub fn end_line<D: Image, S: Sink, L: Ledger>(
        &mut self,
        alloc: Global,
        timeline: &mut Timeline<D>,
        out: &mut Careful<S>,
        steps: &mut Steps<L>,
    ) -> Result<(), Halt>
        ensures says { Says (whole_line timeline.old.script (desk_of timeline.old self.old)) result
            (desk_of timeline.new self.new)
            (written (S.taken out.old) (S.faults out.old))
            (written (S.taken out.new) (S.faults out.new)) }
        ensures script { timeline.new.script ≡ timeline.old.script }
        ensures image { TextLeaves result timeline.old.image timeline.new.image }
        ensures role { S.role out.new ≡ S.role out.old }
    {
        let text = match self.answer_line(alloc, timeline, steps) {
            Ok(text) => text,
            Err(Unanswered::ImageFault) => return Err(Halt::ImageFault),
            Err(Unanswered::NoMemory) => return Err(Halt::NoMemory),
        };
        match out.put_all(text.as_bytes()) {
            Ok(()) => Ok(()),
            Err(_) => Err(Halt::WriteFault),
        }
    }

    /// Takes a byte, and answers the line that it ends.
    #[tactic(auto, unfolding(crate::specs::Session::with_byte))]
    fn take_byte<D: Image, S: Sink, L: Ledger>(
        &mut self,
        alloc: Global,
        timeline: &mut Timeline<D>,
        byte: u8,
        out: &mut Careful<S>,
        steps: &mut Steps<L>,
    ) -> Result<(), Halt>
        ensures says { Says
            (with_byte timeline.old.script (desk_of timeline.old self.old) byte) result
            (desk_of timeline.new self.new)
            (written (S.taken out.old) (S.faults out.old))
            (written (S.taken out.new) (S.faults out.new)) }
        ensures script { timeline.new.script ≡ timeline.old.script }
        ensures image { TextLeaves result timeline.old.image timeline.new.image }
        ensures role { S.role out.new ≡ S.role out.old }
    {
        if byte == b'\n' {
            return self.end_line(alloc, timeline, out, steps);
        }
        match self.line.push(byte) {
            Ok(()) => Ok(()),
            Err(_) => Err(Halt::NoMemory),
        }
    }

    /// Takes bytes, up to `quit`, and answers each line before the next.
    pub fn take_bytes<D: Image, S: Sink, L: Ledger>(
        &mut self,
        alloc: Global,
        timeline: &mut Timeline<D>,
        bytes: &[u8],
        out: &mut Careful<S>,
        steps: &mut Steps<L>,
    ) -> Result<(), Halt>
        ensures says { Says
            (fed timeline.old.script (desk_of timeline.old self.old) bytes.now) result
            (desk_of timeline.new self.new)
            (written (S.taken out.old) (S.faults out.old))
            (written (S.taken out.new) (S.faults out.new)) }
        ensures script { timeline.new.script ≡ timeline.old.script }
        ensures image { TextLeaves result timeline.old.image timeline.new.image }
        ensures role { S.role out.new ≡ S.role out.old }
    {
        for byte in bytes {
            if self.quit {
                return Ok(());
            }
            self.take_byte(alloc, timeline, *byte, out, steps)?;
        }
        Ok(())
    }
}
