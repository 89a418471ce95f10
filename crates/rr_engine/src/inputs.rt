//! What gives a recording its inputs, window by window.

ghost use Rattle.std.specs.Prelude.{◌≡◌, true, [], None, All, map, List, ℕ};
ghost use Rattle.std.specs.declared.option.Option.{Option};
ghost use Rattle.rr_engine.specs.Feed.{Feed, Receives, IsInput, IsOver, IsSound, event_of_item};

use event_log::Event;
use io_workers::{Pieces, ReadError};
use outside::Source;
use plain_hub::Item;
use std::alloc::Global;

/// Why a window received no more.
#[derive(Clone, Copy, Debug, PartialEq, Eq)]
pub(crate) enum Trouble {
    /// The console's source failed.
    ConsoleRead,
    NoMemory,
}

/// What a window received: items, each of which becomes an event, and then trouble, if there was
/// any.
#[derive(Drop)]
pub(crate) struct Received {
    pub items: Vec<Item>,
    pub trouble: Option<Trouble>,
}

/// What gives a recording its inputs.
pub(crate) trait Inputs {
    /// With what the source of the recording's devices has left, and how often it failed.
    ghost feed: { Self → Option (List ℕ) → ℕ → Feed };

    /// What a window receives. In an idle window nothing means that nothing more will come.
    fn receive<S: Source>(&mut self, alloc: Global, idle: bool, source: &mut S) -> Received
        requires sound { IsSound (feed self.old (S.left source.old) (S.faults source.old)) }
        ensures receives { Receives (feed self.old (S.left source.old) (S.faults source.old))
            (feed self.new (S.left source.new) (S.faults source.new))
            (map event_of_item result.items.items) result.trouble }
        ensures inputs { All IsInput result.items.items }
        ensures quiet { idle ≡ true → result.items.items ≡ [] → result.trouble ≡ None
            → IsOver (feed self.new (S.left source.new) (S.faults source.new)) }
        ensures sound { IsSound (feed self.new (S.left source.new) (S.faults source.new)) };
}

/// The event of an item.
pub(crate) fn event_of(item: Item) -> Event
    ensures { result ≡ event_of_item item }
{
    match item {
        Item::Console(bytes) => Event::CharRead(bytes),
        Item::Packet(bytes) => Event::Net(bytes),
        Item::Done { id, read } => Event::Block {
            id,
            ok: read.is_some(),
        },
    }
}

/// No items, and why, if there was trouble.
fn nothing(alloc: Global, trouble: Option<Trouble>) -> Received
    ensures items { result.items.items ≡ [] }
    ensures trouble { result.trouble ≡ trouble }
{
    Received {
        items: Vec::new(alloc),
        trouble,
    }
}

// The recording reads its console itself: a piece in each window, until its end was answered.
impl Inputs for Pieces {
    ghost use Rattle.rr_engine.specs.Feed.{source_feed};

    ghost feed = { source_feed };

    fn receive<S: Source>(&mut self, alloc: Global, _idle: bool, source: &mut S) -> Received {
        if self.ended() {
            return nothing(alloc, None);
        }
        // The room comes first: a piece that was read isn't lost.
        let Ok(mut items) = Vec::with_capacity(alloc, 1) else {
            return nothing(alloc, Some(Trouble::NoMemory));
        };
        match self.next(alloc, source) {
            Ok(Some(piece)) => {
                items.push_reserved(Item::Console(piece));
                Received {
                    items,
                    trouble: None,
                }
            }
            Ok(None) => nothing(alloc, None),
            Err(ReadError::Failed) => nothing(alloc, Some(Trouble::ConsoleRead)),
            Err(ReadError::NoMemory) => nothing(alloc, Some(Trouble::NoMemory)),
        }
    }
}
