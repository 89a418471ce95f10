//! What a worker is asked for.

/// A read of `len` bytes from `at` on.
#[derive(Clone, Copy, PartialEq, Eq, Debug)]
pub struct Job {
    pub id: u64,
    pub at: u64,
    pub len: u32,
}
