//! Lists that contracts see and that take no memory.
ghost use Rattle.std.specs.Prelude.{◌≡◌, ◌∷◌, [], option_copied};

use std::marker::Model;
use std::snapshot::Snapshot;

/// A list that only contracts see, the newest item first. It keeps its newest item and nothing of
/// those before.
#[cycle(past)]
#[derive(Drop)]
pub struct Past<T> {
    link: Link<T>,
}

#[cycle(past)]
#[derive(Drop)]
enum Link<T> {
    Start,
    More(T, Snapshot<Past<T>>),
}

impl<T> Model for Past<T> {
    ghost use Rattle.std.specs.Prelude.{List, length};

    ghost Value = { List T };

    ghost use Rattle.outside.specs.Past.{items};

    ghost view = { λ p. items p.link };

    ghost size = { length };

    ghost use Rattle.std.proofs.Common.{arith};

    ghost size_decreases = { λ a h. Prim.grind arith };
}

impl<T> Past<T> {
    /// No item.
    pub(crate) fn new() -> Past<T>
        ensures { result ≡ [] }
    {
        Past { link: Link::Start }
    }
}

impl<T: Drop> Past<T> {
    /// Adds an item, in front.
    pub(crate) fn push(&mut self, item: T)
        ensures { self.new ≡ item ∷ self.old }
    {
        let before = Snapshot::of(self);
        self.link = Link::More(item, before);
    }
}

/// The bytes, for contracts.
pub(crate) fn told_bytes(bytes: &[u8]) -> Past<u8>
    ensures { result ≡ bytes.now }
{
    let mut told = Past::new();
    let mut at = bytes.len();
    while at > 0 {
        at -= 1;
        told.push(bytes[at]);
    }
    told
}

/// The name, for contracts.
pub(crate) fn told_name(name: Option<&str>) -> Option<Past<u8>>
    ensures { result ≡ option_copied name.entry }
{
    match name {
        Some(name) => Some(told_bytes(name.as_bytes())),
        None => None,
    }
}
