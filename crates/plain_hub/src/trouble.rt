//! Why passes end.
ghost use Rattle.std.specs.Prelude.{◌≡◌};
ghost use Rattle.plain_hub.specs.Hub.{first_of_two, trouble_at};

/// Why a pass ended.
#[derive(Clone, Copy, PartialEq, Eq, Debug)]
pub enum Why {
    Ended,
    Fault,
    NoMemory,
}

// The first pass that ended by a fault or without memory, after one more pass has ended.
pub(crate) fn first_trouble(earlier: Option<(u32, Why)>, pass: u32, why: Why) -> Option<(u32, Why)>
    ensures { result ≡ first_of_two earlier (trouble_at pass why) }
{
    match (earlier, why) {
        (Some(trouble), _) => Some(trouble),
        (None, Why::Ended) => None,
        (None, Why::Fault) => Some((pass, Why::Fault)),
        (None, Why::NoMemory) => Some((pass, Why::NoMemory)),
    }
}
