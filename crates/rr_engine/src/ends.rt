//! How a recording ends.

ghost use Rattle.std.specs.Prelude.{◌≡◌};

/// How a recording ended.
#[derive(Clone, Copy, Debug, PartialEq, Eq)]
pub enum RunEnd {
    /// By the END event of this reason and code.
    End { reason: u8, code: u32 },
    /// The console's source failed first.
    ConsoleRead,
    /// The console's sink failed first.
    ConsoleWrite,
    /// The log's sink failed first.
    LogWrite,
    NoMemory,
}

/// What breaks a recording off.
#[derive(Clone, Copy, Debug, PartialEq, Eq)]
pub(crate) enum Break {
    ConsoleRead,
    ConsoleWrite,
    LogWrite,
    NoMemory,
}

impl Break {
    ghost use Rattle.rr_engine.specs.Recording.{end_of, or_memory};

    /// How the recording ended by it.
    pub fn end(self) -> RunEnd
        ensures { result ≡ end_of self }
    {
        match self {
            Break::ConsoleRead => RunEnd::ConsoleRead,
            Break::ConsoleWrite => RunEnd::ConsoleWrite,
            Break::LogWrite => RunEnd::LogWrite,
            Break::NoMemory => RunEnd::NoMemory,
        }
    }

    /// This, or want of memory, where that kept the rest of the log from its sink.
    pub fn or_memory(self, rest: Result<(), Break>) -> Break
        ensures { result ≡ or_memory self rest }
    {
        match rest {
            Err(Break::NoMemory) => Break::NoMemory,
            _ => self,
        }
    }
}
