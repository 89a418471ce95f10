//! Writing an event.

ghost use Rattle.std.specs.Prelude.{◌≡◌, ◌++◌, ◌^◌, ◌<◌, ◌≤◌, length, List, ℕ, OnOk, OnErr, IfOk};
ghost use Rattle.event_log.specs.declared.event.Event.{Event as AnEvent};
ghost use Rattle.event_log.specs.Fronts.{FrontOfTexts};
ghost use Rattle.event_log.specs.Spelling.{text, texts, counted, IsEvent};

use crate::event::Event;
use crate::ids;
use outside::{Bytes, NoMemory};
use std::alloc::Global;

/// The event's bytes.
pub fn text_of(alloc: Global, event: &Event) -> Result<Vec<u8>, NoMemory>
    requires { IsEvent event.now }
    ensures text { IfOk result (λ v. v.items ≡ text event.now) }
    ensures most { IfOk result (λ v. length v.items ≤ 1525) }
{
    let mut out = Vec::new(alloc);
    match event {
        Event::Instruction(turns) => {
            out.push(ids::INSTRUCTION)?;
            out.extend_from_slice(&turns.to_be_bytes())?;
        }
        Event::Interrupt => out.push(ids::INTERRUPT)?,
        Event::Exception => out.push(ids::EXCEPTION)?,
        Event::CharRead(bytes) => {
            out.extend_from_slice(&[ids::ASYNC, ids::CHAR_READ, ids::CONSOLE])?;
            put_counted(bytes, &mut out)?;
        }
        Event::Block { id, ok } => {
            out.extend_from_slice(&[ids::ASYNC, ids::BLOCK])?;
            out.extend_from_slice(&id.to_be_bytes())?;
            out.push(if *ok { ids::DONE } else { ids::FAILED })?;
        }
        Event::Net(bytes) => {
            out.extend_from_slice(&[ids::ASYNC, ids::NET, ids::ADAPTER])?;
            out.extend_from_slice(&ids::FLAGS.to_be_bytes())?;
            put_counted(bytes, &mut out)?;
        }
        Event::Clock(value) => {
            out.extend_from_slice(&[ids::CLOCK, ids::HOST_CLOCK])?;
            out.extend_from_slice(&value.to_be_bytes())?;
        }
        Event::Checkpoint { idle } => {
            out.extend_from_slice(&[ids::CHECKPOINT, if *idle { ids::IDLE } else { ids::SLICE }])?;
        }
        Event::End { reason, code } => {
            out.extend_from_slice(&[ids::END, *reason])?;
            out.extend_from_slice(&code.to_be_bytes())?;
        }
    }
    Ok(out)
}

// Appends how many bytes there are, and the bytes.
fn put_counted(bytes: &Bytes, out: &mut Vec<u8>) -> Result<(), NoMemory>
    requires { length bytes.now < 2 ^ 32 }
    ensures { OnOk result (out.new.items ≡ out.old.items ++ counted bytes.now) }
{
    let bytes = bytes.as_slice();
    out.extend_from_slice(&(bytes.len() as u32).to_be_bytes())?;
    out.extend_from_slice(bytes)
}

/// Appends the event's spelling.
pub fn put_event(alloc: Global, event: &Event, out: &mut Vec<u8>) -> Result<(), NoMemory>
    requires { IsEvent event.now }
    ensures ok { OnOk result (out.new.items ≡ out.old.items ++ text event.now) }
    ensures err { OnErr result (out.new.items ≡ out.old.items) }
{
    let bytes = text_of(alloc, event)?;
    out.extend_from_slice(&bytes)
}

/// No event's spelling is the front of another's: the bytes determine the event at their front.
pub fn one_spelling()
    ensures { (one other : AnEvent) (after rest : List ℕ) → IsEvent one → IsEvent other
        → text one ++ after ≡ text other ++ rest → (one ≡ other) × (after ≡ rest) }
{}

/// A front of events' spellings is that of the first events, and a part of the next one's.
pub fn front_of_texts()
    ensures { (events : List AnEvent) (front rest : List ℕ)
        → texts events ≡ front ++ rest → FrontOfTexts events front }
{}
