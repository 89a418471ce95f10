//! The next break on the way back or on.

ghost use Rattle.std.specs.Prelude.{◌≡◌, ◌≤◌, ◌<◌};
ghost use Rattle.reverse_seek.specs.Timeline.{break_below as greatest_below, break_above as least_above};

/// The greatest break below a count, else 0.
#[tactic(auto, using(crate::proofs::Nearest::below_more, crate::proofs::Nearest::below_none))]
pub fn break_below(at: u64, breaks: &[u64]) -> u64
    ensures found { result ≡ greatest_below at breaks.now }
    ensures less { 0 < at → result < at }
{
    let mut found = 0;
    for b in breaks {
        if *b < at {
            found = found.max(*b);
        }
    }
    found
}

/// The least break above a count that isn't above the last one, else the last one.
#[tactic(auto, using(crate::proofs::Nearest::above_more, crate::proofs::Nearest::above_none, crate::proofs::Nearest::above_start))]
pub fn break_above(at: u64, last: u64, breaks: &[u64]) -> u64
    ensures found { result ≡ least_above at last breaks.now }
    ensures within { result ≤ last }
{
    let mut found = last;
    for b in breaks {
        if at < *b {
            found = found.min(*b);
        }
    }
    found
}
