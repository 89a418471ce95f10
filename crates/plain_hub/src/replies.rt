//! What the hub answers.
use crate::{Item, Why};

/// Why no job was claimed.
#[derive(Debug, Drop)]
pub enum ClaimRefusal {
    Empty,
    Stopped,
    NoMemory,
}

/// Why an item was not posted. It comes back.
#[derive(Debug, Drop)]
pub enum PostRefusal {
    Stopped(Item),
    NoMemory(Item),
}

/// Why no Done was taken.
#[derive(Debug, Drop)]
pub enum TakeRefusal {
    NotYet,
    NoMemory,
}

/// All posted items in order, how many passes had ended, and the first trouble.
#[derive(Debug, Drop)]
pub struct Flushed {
    pub items: Vec<Item>,
    pub ended: u32,
    pub trouble: Option<(u32, Why)>,
}

/// How many items wait, how many passes have ended, and the first trouble.
#[derive(Debug, Drop)]
pub struct Sight {
    pub waiting: u64,
    pub ended: u32,
    pub trouble: Option<(u32, Why)>,
}
