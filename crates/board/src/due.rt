//! What can be due.

ghost use Rattle.std.specs.Prelude.{◌≡◌};
ghost use Rattle.board.specs.Runs.{is_run as is_run_of};

/// What comes next: a turn, an event, or nothing after the end.
#[derive(Clone, Copy, Debug, PartialEq, Eq)]
pub enum Due {
    Exception,
    /// Reason 0: the guest ended with the code. 1: idle for ever. 2: the budget is used up.
    End { reason: u8, code: u32 },
    /// A checkpoint, since the hart is idle.
    Idle,
    /// A checkpoint, since the slice is over.
    Slice,
    Interrupt,
    /// A value of the host's clock.
    Clock,
    /// An event of the open window: the hart is idle and a request is in flight.
    Wait,
    /// A turn.
    Run,
    /// The run has ended.
    Nothing,
}

impl Due {
    /// Whether a turn is due.
    pub fn is_run(&self) -> bool
        ensures { result ≡ is_run_of self.now }
    {
        match self {
            Due::Run => true,
            _ => false,
        }
    }
}
