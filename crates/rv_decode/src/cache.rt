//! What the last words meant, so that a loop's words are decoded once.
ghost use Rattle.std.specs.Prelude.{◌≡◌, ◌<◌, IfSome, Some};
ghost use Rattle.rv_decode.specs.Fields.{IsWithin, decoded};
ghost use Rattle.rv_decode.specs.Kept.{Knows};

use crate::decoder::decode;
use crate::ins::Ins;
use std::alloc::Global;
use std::marker::Model;

/// How many instructions are kept.
const SLOTS: usize = 16384;

/// A word that is an instruction, beside it.
#[derive(Clone, Copy)]
struct Known {
    word: u32,
    ins: Ins,
    ghost knows: { Knows word ins },
}

/// The instructions that were decoded last, one for each address modulo 65,536. It answers as
/// `decode` does, and only faster, so contracts see nothing of it. It takes no memory before its
/// first instruction, and where memory is refused it keeps none.
#[derive(Drop)]
pub struct DecodeCache {
    slots: Vec<Known>,
}

impl Model for DecodeCache {
    ghost use Rattle.std.specs.Prelude.{⊤};

    ghost Value = { ⊤ };

    ghost view = { λ _. tt };
}

impl DecodeCache {
    /// A cache that knows no instruction.
    pub fn new(alloc: Global) -> DecodeCache {
        DecodeCache {
            slots: Vec::new(alloc),
        }
    }

    /// Another cache, which knows no instruction yet: what this one knows isn't copied.
    pub fn fresh(&self) -> DecodeCache {
        DecodeCache::new(*self.slots.allocator())
    }

    /// The instruction that the word at an address is, or none where it is none of the 68.
    #[inline(always)]
    pub fn decode(&mut self, at: u32, word: u32) -> Option<Ins>
        ensures instruction { result ≡ decoded word }
        ensures registers { IfSome result IsWithin }
    {
        if let Some(known) = self.slots.get(slot_of(at))
            && known.word == word
        {
            return Some(known.ins);
        }
        self.learn(at, word)
    }

    /// Decodes a word and keeps it where it is an instruction.
    #[inline(never)]
    fn learn(&mut self, at: u32, word: u32) -> Option<Ins>
        ensures instruction { result ≡ decoded word }
        ensures registers { IfSome result IsWithin }
    {
        let ins = decode(word)?;
        let known = Known { word, ins };
        if self.slots.is_empty() && self.slots.resize(SLOTS, known).is_err() {
            return Some(ins);
        }
        if let Some(slot) = self.slots.get_mut(slot_of(at)) {
            *slot = known;
        }
        Some(ins)
    }

    /// What it knows, if it knows anything.
    pub fn known(&self) -> Option<KnownWords<'_>> {
        let slots = self.slots.as_slice();
        if slots.len() == SLOTS {
            Some(KnownWords { slots })
        } else {
            None
        }
    }
}

/// What a cache knows: it is looked at and learns nothing.
#[derive(Drop)]
pub struct KnownWords<'a> {
    slots: &'a [Known],
}

impl<'a> Model for KnownWords<'a> {
    ghost use Rattle.std.specs.Prelude.{⊤, ◌≡◌, length};

    ghost Value = { ⊤ };

    ghost view = { λ _. tt };

    ghost invariant = { λ k. length k.slots.now ≡ 16384 };
}

impl<'a> KnownWords<'a> {
    /// The instruction that the word at an address is, where that is known, and it is one.
    #[inline(always)]
    pub fn instruction(&self, at: u32, word: u32) -> Option<Ins>
        ensures instruction { IfSome result (λ ins. decoded word ≡ Some ins) }
        ensures registers { IfSome result IsWithin }
    {
        let known = &self.slots[slot_of(at)];
        if known.word != word {
            return None;
        }
        Some(known.ins)
    }
}

/// The slot of an address.
#[inline(always)]
fn slot_of(at: u32) -> usize
    ensures { result < SLOTS }
{
    at as usize / 4 % SLOTS
}
