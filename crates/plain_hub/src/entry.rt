//! What a history is made of.
use crate::{Job, Short, Why};

/// A call that changed the hub, with its reply where that doesn't follow from the entries before.
#[derive(Debug, Drop)]
pub enum Call {
    Issue(Job),
    Claim(Job),
    Post(Short),
    Flush(u64),
    TakeDone { id: u64, ok: bool },
    End(Why),
    Stop,
}

/// A call of a pass.
#[derive(Debug, Drop)]
pub struct Entry {
    pub pass: u32,
    pub call: Call,
}
