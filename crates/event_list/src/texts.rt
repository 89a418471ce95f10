//! The texts of events.

ghost use Rattle.std.specs.Prelude.{◌≡◌, ◌++◌, IfOk, string_bytes, codes};
ghost use Rattle.std.specs.Fmt.{decimal};
ghost use Rattle.event_list.specs.Texts.{end_text, event_text, event_line as event_line_of};

use event_log::Event;
use outside::NoMemory;
use std::alloc::Global;

/// The text of END with this reason and code.
pub fn end_text(alloc: Global, reason: u8, code: u32) -> Result<String, NoMemory>
    ensures { IfOk result (λ s. string_bytes s ≡ end_text reason code) }
{
    format!(in alloc; "END {reason} {code}")
}

/// An event's name and its numbers. Of bytes it tells how many there are.
pub fn event_text(alloc: Global, event: &Event) -> Result<String, NoMemory>
    ensures { IfOk result (λ s. string_bytes s ≡ event_text event.now) }
{
    match event {
        Event::Instruction(count) => format!(in alloc; "INSTRUCTION {count}"),
        Event::Interrupt => String::from_str(alloc, "INTERRUPT"),
        Event::Exception => String::from_str(alloc, "EXCEPTION"),
        Event::CharRead(bytes) => {
            let count = bytes.as_slice().len();
            format!(in alloc; "CHAR_READ {count}")
        }
        Event::Block { id, ok: true } => format!(in alloc; "BLOCK {id} ok"),
        Event::Block { id, ok: false } => format!(in alloc; "BLOCK {id} error"),
        Event::Net(packet) => {
            let count = packet.as_slice().len();
            format!(in alloc; "NET {count}")
        }
        Event::Clock(value) => format!(in alloc; "CLOCK {value}"),
        Event::Checkpoint { idle: true } => String::from_str(alloc, "CHECKPOINT idle"),
        Event::Checkpoint { idle: false } => String::from_str(alloc, "CHECKPOINT slice"),
        Event::End { reason, code } => end_text(alloc, *reason, *code),
    }
}

fn placed(alloc: Global, index: u64, offset: u64, text: &str) -> Result<String, NoMemory>
    ensures { IfOk result (λ s. string_bytes s
        ≡ decimal index ++ codes " " ++ decimal offset ++ codes " " ++ text.now ++ codes "\n") }
{
    format!(in alloc; "{index} {offset} {text}\n")
}

/// The line of an event, with its number and its place in the log.
pub(crate) fn event_line(
    alloc: Global,
    index: u64,
    offset: u64,
    event: &Event,
) -> Result<String, NoMemory>
    ensures { IfOk result (λ s. string_bytes s ≡ event_line_of index offset event.now) }
{
    let text = event_text(alloc, event)?;
    placed(alloc, index, offset, text.as_str())
}
