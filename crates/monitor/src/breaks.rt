//! The breaks of a session, rising.

ghost use Rattle.std.specs.Prelude.{◌≡◌, ◌≤◌, ◌++◌, ◌∷◌, OnOk, OnErr, length, take, drop, if◌then◌else◌};
ghost use Rattle.monitor.specs.Session.{with_break};

use outside::NoMemory;
use std::alloc::AllocError;

/// Where a break belongs, and whether it is there.
#[tactic(auto, using(crate::proofs::Adding::adds))]
fn place_of(breaks: &[u64], n: u64) -> (usize, bool)
    ensures within { result.0 ≤ length breaks.now }
    ensures place { with_break n breaks.now
        ≡ (if result.1 then breaks.now
        else take result.0 breaks.now ++ n ∷ drop result.0 breaks.now) }
{
    for i in 0..breaks.len() {
        if n == breaks[i] {
            return (i, true);
        }
        if n < breaks[i] {
            return (i, false);
        }
    }
    (breaks.len(), false)
}

/// Adds a break, where it isn't there.
pub fn add_break(breaks: &mut Vec<u64>, n: u64) -> Result<(), NoMemory>
    ensures ok { OnOk result (breaks.new.items ≡ with_break n breaks.old.items) }
    ensures err { OnErr result (breaks.new.items ≡ breaks.old.items) }
{
    let (at, found) = place_of(breaks.as_slice(), n);
    if found {
        return Ok(());
    }
    match breaks.insert(at, n) {
        Ok(()) => Ok(()),
        Err(_) => Err(AllocError),
    }
}
