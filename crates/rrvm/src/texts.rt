//! The texts of what is due, and of what is found in its place.

ghost use Rattle.std.specs.Prelude.{◌≡◌, ◌++◌, IfOk, string_bytes, codes};
ghost use Rattle.std.specs.Fmt.{decimal};
ghost use Rattle.rrvm.specs.Texts.{due_text, rule_text, found_text, refusal_line};

use board::Due;
use event_list::{end_text, event_text};
use event_log::Rule;
use log_order::{Found, Refusal};
use std::alloc::{AllocError, Global};

fn due_text(alloc: Global, due: Due) -> Result<String, AllocError>
    ensures { IfOk result (λ s. string_bytes s ≡ due_text due) }
{
    match due {
        Due::Exception => String::from_str(alloc, "EXCEPTION"),
        Due::End { reason, code } => end_text(alloc, reason, code),
        Due::Idle => String::from_str(alloc, "CHECKPOINT idle"),
        Due::Slice => String::from_str(alloc, "CHECKPOINT slice"),
        Due::Interrupt => String::from_str(alloc, "INTERRUPT"),
        Due::Clock => String::from_str(alloc, "CLOCK"),
        Due::Wait => String::from_str(alloc, "WAIT"),
        Due::Run => String::from_str(alloc, "RUN"),
        Due::Nothing => String::from_str(alloc, "NOTHING"),
    }
}

fn rule_text(rule: Rule) -> &'static str
    ensures { result.now ≡ rule_text rule }
{
    match rule {
        Rule::BadField => "field",
        Rule::UnknownId => "id",
        Rule::UnknownAsync => "async",
        Rule::BadCount => "count",
        Rule::BadDevice => "device",
        Rule::BadLength => "length",
        Rule::BadStatus => "status",
        Rule::BadAdapter => "adapter",
        Rule::BadFlags => "flags",
        Rule::BadClock => "clock",
        Rule::BadKind => "kind",
        Rule::BadReason => "reason",
        Rule::BadCode => "code",
    }
}

fn found_text(alloc: Global, found: &Found) -> Result<String, AllocError>
    ensures { IfOk result (λ s. string_bytes s ≡ found_text found.now) }
{
    match found {
        Found::Event(event) => event_text(alloc, event),
        Found::Rule(rule) => {
            let word = rule_text(*rule);
            format!(in alloc; "bad {word}")
        }
        Found::Cut => String::from_str(alloc, "a cut"),
        Found::MoreBytes => String::from_str(alloc, "more bytes"),
    }
}

fn refused_at(
    alloc: Global,
    index: u64,
    offset: u64,
    due: &str,
    found: &str,
) -> Result<String, AllocError>
    ensures { IfOk result (λ s. string_bytes s
        ≡ codes "rrvm: log refused: event " ++ decimal index ++ codes " at " ++ decimal offset
        ++ codes ": due " ++ due.now ++ codes ", found " ++ found.now ++ codes "\n") }
{
    format!(in alloc; "rrvm: log refused: event {index} at {offset}: due {due}, found {found}\n")
}

/// The line for a log's first wrong event.
pub(crate) fn refusal_line(alloc: Global, refusal: &Refusal) -> Result<String, AllocError>
    ensures { IfOk result (λ s. string_bytes s ≡ refusal_line refusal.now) }
{
    let due = due_text(alloc, refusal.due)?;
    let found = found_text(alloc, &refusal.found)?;
    refused_at(
        alloc,
        refusal.index,
        refusal.offset,
        due.as_str(),
        found.as_str(),
    )
}
