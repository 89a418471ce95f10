//! Reading an event, from left to right.

ghost use Rattle.std.specs.Prelude.{◌≡◌, List, length, IfOk, Ok, take, drop, ℕ};
ghost use Rattle.std.specs.Int.{w8, w32, w64, from_be_bytes};
ghost use Rattle.event_log.specs.Grammar.{read};
ghost use Rattle.event_log.specs.Spelling.{instruction, char_read, block, net, from_outside, clock, checkpoint, end, by_id, event};
ghost use Rattle.event_log.specs.Log.{Gives};

use crate::event::Event;
use crate::fields::{front_at, u8_at, u32_at, u64_at};
use crate::ids;
use crate::rule::Rule;
use crate::stop::Stop;
use outside::Bytes;
use std::alloc::Global;

#[tactic(auto, unfolding(crate::specs::Spelling::instruction))]
fn instruction_of(bytes: &[u8]) -> Result<(Event, &[u8]), Stop>
    ensures { Gives (λ x. (x.0, x.1.now)) result (read instruction bytes.now) }
{
    let (turns, rest) = u32_at(bytes)?;
    if turns == 0 {
        return Err(Stop::Bad(Rule::BadCount));
    }
    Ok((Event::Instruction(turns), rest))
}

#[tactic(auto, unfolding(crate::specs::Spelling::char_read))]
fn char_read_of(alloc: Global, bytes: &[u8]) -> Result<(Event, &[u8]), Stop>
    ensures { Gives (λ x. (x.0, x.1.now)) result (read char_read bytes.now) }
{
    let (device, rest) = u8_at(bytes)?;
    if device != ids::CONSOLE {
        return Err(Stop::Bad(Rule::BadDevice));
    }
    let (count, rest) = u32_at(rest)?;
    if !(1..=ids::MAX_CHAR_READ).contains(&count) {
        return Err(Stop::Bad(Rule::BadLength));
    }
    let (text, rest) = front_at(rest, count as usize)?;
    Ok((Event::CharRead(Bytes::of(alloc, text)?), rest))
}

#[tactic(auto, unfolding(crate::specs::Spelling::block))]
fn block_of(bytes: &[u8]) -> Result<(Event, &[u8]), Stop>
    ensures { Gives (λ x. (x.0, x.1.now)) result (read block bytes.now) }
{
    let (id, rest) = u64_at(bytes)?;
    let (status, rest) = u8_at(rest)?;
    let ok = match status {
        ids::DONE => true,
        ids::FAILED => false,
        _ => return Err(Stop::Bad(Rule::BadStatus)),
    };
    Ok((Event::Block { id, ok }, rest))
}

#[tactic(auto, unfolding(crate::specs::Spelling::net))]
fn net_of(alloc: Global, bytes: &[u8]) -> Result<(Event, &[u8]), Stop>
    ensures { Gives (λ x. (x.0, x.1.now)) result (read net bytes.now) }
{
    let (adapter, rest) = u8_at(bytes)?;
    if adapter != ids::ADAPTER {
        return Err(Stop::Bad(Rule::BadAdapter));
    }
    let (flags, rest) = u32_at(rest)?;
    if flags != ids::FLAGS {
        return Err(Stop::Bad(Rule::BadFlags));
    }
    let (count, rest) = u32_at(rest)?;
    if !(ids::MIN_PACKET..=ids::MAX_PACKET).contains(&count) {
        return Err(Stop::Bad(Rule::BadLength));
    }
    let (packet, rest) = front_at(rest, count as usize)?;
    Ok((Event::Net(Bytes::of(alloc, packet)?), rest))
}

#[tactic(auto, unfolding(crate::specs::Spelling::from_outside))]
fn async_of(alloc: Global, bytes: &[u8]) -> Result<(Event, &[u8]), Stop>
    ensures { Gives (λ x. (x.0, x.1.now)) result (read from_outside bytes.now) }
{
    let (kind, rest) = u8_at(bytes)?;
    match kind {
        ids::CHAR_READ => char_read_of(alloc, rest),
        ids::BLOCK => block_of(rest),
        ids::NET => net_of(alloc, rest),
        _ => Err(Stop::Bad(Rule::UnknownAsync)),
    }
}

#[tactic(auto, unfolding(crate::specs::Spelling::clock))]
fn clock_of(bytes: &[u8]) -> Result<(Event, &[u8]), Stop>
    ensures { Gives (λ x. (x.0, x.1.now)) result (read clock bytes.now) }
{
    let (clock, rest) = u8_at(bytes)?;
    if clock != ids::HOST_CLOCK {
        return Err(Stop::Bad(Rule::BadClock));
    }
    let (value, rest) = u64_at(rest)?;
    Ok((Event::Clock(value), rest))
}

#[tactic(auto, unfolding(crate::specs::Spelling::checkpoint))]
fn checkpoint_of(bytes: &[u8]) -> Result<(Event, &[u8]), Stop>
    ensures { Gives (λ x. (x.0, x.1.now)) result (read checkpoint bytes.now) }
{
    let (kind, rest) = u8_at(bytes)?;
    let idle = match kind {
        ids::SLICE => false,
        ids::IDLE => true,
        _ => return Err(Stop::Bad(Rule::BadKind)),
    };
    Ok((Event::Checkpoint { idle }, rest))
}

#[tactic(auto, unfolding(crate::specs::Spelling::end))]
fn end_of(bytes: &[u8]) -> Result<(Event, &[u8]), Stop>
    ensures { Gives (λ x. (x.0, x.1.now)) result (read end bytes.now) }
{
    let (reason, rest) = u8_at(bytes)?;
    if reason > ids::DEVICE_FAULT {
        return Err(Stop::Bad(Rule::BadReason));
    }
    let (code, rest) = u32_at(rest)?;
    if reason != ids::GUEST_ENDED && code != 0 {
        return Err(Stop::Bad(Rule::BadCode));
    }
    Ok((Event::End { reason, code }, rest))
}

/// The event at the front of the bytes, and the bytes after it.
#[tactic(auto, unfolding(crate::specs::Spelling::by_id, crate::specs::Spelling::event))]
pub fn event_of(alloc: Global, bytes: &[u8]) -> Result<(Event, &[u8]), Stop>
    ensures { Gives (λ x. (x.0, x.1.now)) result (read event bytes.now) }
{
    let (id, rest) = u8_at(bytes)?;
    match id {
        ids::INSTRUCTION => instruction_of(rest),
        ids::INTERRUPT => Ok((Event::Interrupt, rest)),
        ids::EXCEPTION => Ok((Event::Exception, rest)),
        ids::ASYNC => async_of(alloc, rest),
        ids::CLOCK => clock_of(rest),
        ids::CHECKPOINT => checkpoint_of(rest),
        ids::END => end_of(rest),
        _ => Err(Stop::Bad(Rule::UnknownId)),
    }
}
