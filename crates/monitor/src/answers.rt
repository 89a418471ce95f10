//! The texts of answers, and the moves that they tell.

ghost use Rattle.std.specs.Prelude.{◌≡◌, ◌++◌, IfOk, string_bytes, codes};
ghost use Rattle.std.specs.Fmt.{decimal};
ghost use Rattle.monitor.specs.Texts.{hexadecimal, stands_at, past_text, break_text};
ghost use Rattle.monitor.specs.Texts.{breaks_text as breaks_text_of, breaks_or_none as breaks_or_none_of, replay_text as replay_text_of, error_text as error_text_of};
ghost use Rattle.monitor.specs.declared.answers.Unanswered.TheVariants as unanswered;
ghost use Rattle.monitor.specs.Moves.{Tells, Blames, AnswerLeaves, TellsSeek, TellsStepBack, TellsStepOn, TellsRunBack, TellsRunOn};

use crate::command::LineError;
use board::Steps;
use outside::{Image, NoMemory};
use reverse_seek::{SeekError, Timeline};
use std::alloc::{AllocError, Global};
use std::sync::ledger::Ledger;

/// Why a command isn't answered.
#[derive(Clone, Copy, Debug, PartialEq, Eq)]
pub enum Unanswered {
    /// The disk's image failed.
    ImageFault,
    NoMemory,
}

impl From<AllocError> for Unanswered {
    ghost from_gives = { λ _ e. e ≡ unanswered.NoMemory };

    fn from(_error: AllocError) -> Unanswered {
        Unanswered::NoMemory
    }
}

/// A word of 32 bits.
fn word(alloc: Global, n: u32) -> Result<String, NoMemory>
    ensures { IfOk result (λ s. string_bytes s ≡ hexadecimal 8 n) }
{
    format!(in alloc; "{n:08x}")
}

fn stands(alloc: Global, place: u64, pc: &str) -> Result<String, NoMemory>
    ensures { IfOk result (λ s. string_bytes s
        ≡ codes "at " ++ decimal place ++ codes " pc " ++ pc.now ++ codes "\n") }
{
    format!(in alloc; "at {place} pc {pc}\n")
}

/// A count above the last one was asked for.
pub fn past_end(alloc: Global, asked: u64, last: u64) -> Result<String, NoMemory>
    ensures { IfOk result (λ s. string_bytes s ≡ past_text asked last) }
{
    format!(in alloc; "past the end: {asked}, last {last}\n")
}

/// A number after a space.
fn spaced(alloc: Global, n: u64) -> Result<String, NoMemory>
    ensures { IfOk result (λ s. string_bytes s ≡ codes " " ++ decimal n) }
{
    format!(in alloc; " {n}")
}

/// The breaks, each after a space.
#[tactic(auto, using(crate::proofs::Spaced::text_more, crate::proofs::Spaced::text_end))]
fn breaks_text(alloc: Global, breaks: &[u64]) -> Result<String, NoMemory>
    ensures { IfOk result (λ s. string_bytes s ≡ breaks_text_of breaks.now) }
{
    let mut text = String::new(alloc);
    for b in breaks {
        let one = spaced(alloc, *b)?;
        text.push_str(one.as_str())?;
    }
    Ok(text)
}

/// The breaks, or that there are none.
fn breaks_or_none(alloc: Global, breaks: &[u64]) -> Result<String, NoMemory>
    ensures { IfOk result (λ s. string_bytes s ≡ breaks_or_none_of breaks.now) }
{
    match breaks {
        [] => String::from_str(alloc, " none"),
        _ => breaks_text(alloc, breaks),
    }
}

fn replay_text(alloc: Global, place: u64, last: u64, breaks: &str) -> Result<String, NoMemory>
    ensures { IfOk result (λ s. string_bytes s
        ≡ codes "at " ++ decimal place ++ codes " of " ++ decimal last
        ++ codes ", breaks" ++ breaks.now ++ codes "\n") }
{
    format!(in alloc; "at {place} of {last}, breaks{breaks}\n")
}

/// `info replay`.
pub fn info_replay<D: Image>(
    alloc: Global,
    timeline: &Timeline<D>,
    breaks: &[u64],
) -> Result<String, NoMemory>
    ensures { IfOk result (λ s. string_bytes s
        ≡ replay_text_of timeline.now.at timeline.now.script.last breaks.now) }
{
    let list = breaks_or_none(alloc, breaks)?;
    replay_text(alloc, timeline.at(), timeline.last(), list.as_str())
}

/// The count at which the timeline stands, and the program counter there.
fn place<D: Image>(alloc: Global, timeline: &Timeline<D>) -> Result<String, NoMemory>
    ensures { IfOk result (λ s. string_bytes s ≡ stands_at timeline.now.script timeline.now.at) }
{
    let pc = word(alloc, timeline.machine().pc())?;
    stands(alloc, timeline.at(), pc.as_str())
}

/// A break was set.
pub fn set(alloc: Global, n: u64) -> Result<String, NoMemory>
    ensures { IfOk result (λ s. string_bytes s ≡ break_text n) }
{
    format!(in alloc; "break {n}\n")
}

/// A text that is always the same.
pub fn fixed(alloc: Global, text: &str) -> Result<String, NoMemory>
    ensures { IfOk result (λ s. string_bytes s ≡ text.now) }
{
    String::from_str(alloc, text)
}

/// What is wrong with a line.
pub fn error_text(alloc: Global, error: LineError) -> Result<String, NoMemory>
    ensures { IfOk result (λ s. string_bytes s ≡ error_text_of error) }
{
    match error {
        LineError::UnknownCommand => fixed(alloc, "unknown command\n"),
        LineError::BadNumber => fixed(alloc, "bad number\n"),
        LineError::TooLong => fixed(alloc, "line too long\n"),
    }
}

/// What is answered after a move.
fn told<D: Image>(
    alloc: Global,
    timeline: &Timeline<D>,
    moved: Result<(), SeekError>,
) -> Result<String, Unanswered>
    ensures told { IfOk result (λ s. Tells timeline.now moved (string_bytes s)) }
    ensures blames { Blames moved result }
{
    match moved {
        Ok(()) => Ok(place(alloc, timeline)?),
        Err(SeekError::AtStart) => Ok(fixed(alloc, "at the start\n")?),
        Err(SeekError::AtEnd) => Ok(fixed(alloc, "at the end\n")?),
        Err(SeekError::PastEnd { asked, last }) => Ok(past_end(alloc, asked, last)?),
        Err(SeekError::ImageFailed) => Err(Unanswered::ImageFault),
        Err(SeekError::NoMemory) => Err(Unanswered::NoMemory),
    }
}

/// `replay_seek`.
#[tactic(auto, using(crate::proofs::Images::leaving))]
pub fn seek<D: Image, L: Ledger>(
    alloc: Global,
    timeline: &mut Timeline<D>,
    n: u64,
    steps: &mut Steps<L>,
) -> Result<String, Unanswered>
    ensures told { IfOk result (λ s. TellsSeek n timeline.old timeline.new (string_bytes s)) }
    ensures script { timeline.new.script ≡ timeline.old.script }
    ensures image { AnswerLeaves result timeline.old.image timeline.new.image }
{
    let moved = timeline.seek(alloc, n, steps);
    told(alloc, timeline, moved)
}

/// `reverse-step`.
#[tactic(auto, using(crate::proofs::Images::leaving))]
pub fn step_back<D: Image, L: Ledger>(
    alloc: Global,
    timeline: &mut Timeline<D>,
    steps: &mut Steps<L>,
) -> Result<String, Unanswered>
    ensures told { IfOk result (λ s. TellsStepBack timeline.old timeline.new (string_bytes s)) }
    ensures script { timeline.new.script ≡ timeline.old.script }
    ensures image { AnswerLeaves result timeline.old.image timeline.new.image }
{
    let moved = timeline.step_back(alloc, steps);
    told(alloc, timeline, moved)
}

/// `step`.
#[tactic(auto, using(crate::proofs::Images::leaving))]
pub fn step_on<D: Image, L: Ledger>(
    alloc: Global,
    timeline: &mut Timeline<D>,
    steps: &mut Steps<L>,
) -> Result<String, Unanswered>
    ensures told { IfOk result (λ s. TellsStepOn timeline.old timeline.new (string_bytes s)) }
    ensures script { timeline.new.script ≡ timeline.old.script }
    ensures image { AnswerLeaves result timeline.old.image timeline.new.image }
{
    let moved = timeline.step_on(alloc, steps);
    told(alloc, timeline, moved)
}

/// `reverse-continue`.
#[tactic(auto, using(crate::proofs::Images::leaving))]
pub fn run_back<D: Image, L: Ledger>(
    alloc: Global,
    timeline: &mut Timeline<D>,
    breaks: &[u64],
    steps: &mut Steps<L>,
) -> Result<String, Unanswered>
    ensures told { IfOk result (λ s.
        TellsRunBack breaks.now timeline.old timeline.new (string_bytes s)) }
    ensures script { timeline.new.script ≡ timeline.old.script }
    ensures image { AnswerLeaves result timeline.old.image timeline.new.image }
{
    let moved = timeline.run_back(alloc, breaks, steps);
    told(alloc, timeline, moved)
}

/// `continue`.
#[tactic(auto, using(crate::proofs::Images::leaving))]
pub fn run_on<D: Image, L: Ledger>(
    alloc: Global,
    timeline: &mut Timeline<D>,
    breaks: &[u64],
    steps: &mut Steps<L>,
) -> Result<String, Unanswered>
    ensures told { IfOk result (λ s.
        TellsRunOn breaks.now timeline.old timeline.new (string_bytes s)) }
    ensures script { timeline.new.script ≡ timeline.old.script }
    ensures image { AnswerLeaves result timeline.old.image timeline.new.image }
{
    let moved = timeline.run_on(alloc, breaks, steps);
    told(alloc, timeline, moved)
}
