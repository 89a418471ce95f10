//! What the machine counts and waits for.

/// The window that a checkpoint opened, and whether it had an event.
#[derive(Clone, Copy, Debug, PartialEq, Eq)]
pub enum Window {
    Shut,
    Slice { used: bool },
    Idle { used: bool },
}

/// How the run ended.
#[derive(Clone, Copy, Debug, PartialEq, Eq)]
pub struct Ending {
    /// 0 the guest ended, 1 idle for ever, 2 budget, 3 stopped by a fault of the outside.
    pub reason: u8,
    /// The guest's code, 0 for the other reasons.
    pub code: u32,
}

/// The marks, the window, and the limits of the run.
#[derive(Clone, Copy, Debug, PartialEq, Eq)]
pub struct Control {
    /// Turns since the last checkpoint.
    pub since: u32,
    /// A trap was entered, and its event is due.
    pub trapped: bool,
    /// The hart waits for an interrupt.
    pub idle: bool,
    pub window: Window,
    pub ended: Option<Ending>,
    pub slice: u32,
    pub budget: u64,
}
