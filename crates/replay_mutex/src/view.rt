//! What a pass knows. These types are for contracts alone, and no value of them is made.
use plain_hub::{Base, Entry};
use std::collections::LinkedList;

/// What a pass that was taken in had seen and called.
pub struct Joined {
    pub base: Base,
    pub number: u64,
    pub seen: LinkedList<Entry>,
    pub mine: LinkedList<Entry>,
}

/// What a pass knows of its hub.
pub struct View {
    pub base: Base,
    pub number: u64,
    /// It was taken in by the pass 0.
    pub spent: bool,
    /// The history of the hub that the pass has taken out, while it holds it.
    pub noted: Option<LinkedList<Entry>>,
    /// The history that it has seen.
    pub seen: LinkedList<Entry>,
    /// Its own calls.
    pub mine: LinkedList<Entry>,
    /// How many passes were made, which the pass 0 knows.
    pub made: u64,
    /// The passes that the pass 0 took in, and what it had itself seen before each.
    pub joined: LinkedList<Joined>,
    pub earlier: LinkedList<LinkedList<Entry>>,
}
