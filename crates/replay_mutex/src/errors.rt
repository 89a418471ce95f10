//! Why a call is refused.
use crate::{Hub, Item, Pass};

/// Why no job was claimed, with the length of the history there.
#[derive(Debug, Drop)]
pub enum ClaimError {
    Empty(u64),
    Stopped(u64),
    NoMemory,
}

/// Why an item was not posted, with the length of the history there. The item comes back.
#[derive(Debug, Drop)]
pub enum PostError {
    Stopped(u64, Item),
    NoMemory(Item),
}

/// Why no Done was taken, with the length of the history there.
#[derive(Debug, Drop)]
pub enum TakeError {
    NotYet(u64),
    NoMemory,
}

/// Why a hub was not closed. All comes back.
#[derive(Drop)]
pub enum CloseError {
    NotAll(Hub, Vec<Pass>),
    NoMemory(Hub, Vec<Pass>),
}
