//! All passes come back, and the hub ends.
ghost use Rattle.std.specs.Prelude.{◌≡◌, ◌≢◌, ◌<◌, ℕ, true, All, ◌==◌, ◌&&◌, ◌∷◌, Some, position, length, IfOk, IfErr, IfSome, is_ok, is_some};
ghost use Rattle.replay_mutex.specs.declared.errors.CloseError.TheVariants.{NotAll};
ghost use Rattle.replay_mutex.specs.Shown.{knows, IsPassOf};
ghost use Rattle.replay_mutex.specs.Row.{has_number, has_below, are_all, IsWhole};

use crate::steps::TakeIn;
use crate::{CloseError, History, Hub, Pass};

impl Hub {
    /// The whole history, for all passes of the hub in any order. Takes no memory.
    pub fn close(self, passes: Vec<Pass>) -> Result<History, CloseError>
        requires { All (IsPassOf self) passes.items }
        ensures exactly { is_ok result ≡ are_all passes.items }
        ensures ok { IfOk result (λ h. IsWhole h passes.items) }
        ensures err { IfErr result (λ e. e ≡ NotAll self passes) }
    {
        let Some(at) = place_of_first_of_all(passes.as_slice()) else {
            return Err(CloseError::NotAll(self, passes));
        };
        let mut others = passes;
        let first = others.remove(at);
        Ok(self.finish(first, others))
    }

    // Takes all passes in, and then the hub out of its table.
    fn finish(self, first: Pass, others: Vec<Pass>) -> History
        requires own { All (IsPassOf self) (first ∷ others.items) }
        requires first { first.number ≡ 0 }
        requires all { (n : ℕ) → n ≢ 0 → n < first.made → has_number n others.items ≡ true }
        requires count { length (first ∷ others.items) ≡ first.made }
        ensures { IsWhole result (first ∷ others.items) }
    {
        let Hub { board } = self;
        let Pass {
            number: _,
            made: _,
            mut seat,
        } = first;
        let mut left = others;
        while let Some(pass) = left.pop() {
            let Pass {
                number: _,
                made: _,
                seat: other,
            } = pass;
            board.shared.join_seat::<TakeIn>(&mut seat, other);
        }
        let mut closed = board.close_with(seat);
        let Some(hub) = closed.take(0) else {
            unreachable!()
        };
        closed.free();
        let _kept = hub.len();
        History::new(hub.into_entries())
    }
}

// Where the pass 0 is, if these are all passes of their hub.
fn place_of_first_of_all(passes: &[Pass]) -> Option<usize>
    ensures exactly { is_some result ≡ are_all passes.now }
    ensures place { IfSome result (λ k. position (λ p. p.number == 0) passes.now ≡ Some k) }
{
    let Some(at) = place_of_first(passes) else {
        return None;
    };
    if are_as_many(passes, passes[at].made) {
        Some(at)
    } else {
        None
    }
}

// As many as `made`, with each number below that.
fn are_as_many(passes: &[Pass], made: u32) -> bool
    ensures { result ≡ (length passes.now == made) && has_below made passes.now }
{
    passes.len() == made as usize && has_below(passes, made)
}

fn place_of_first(passes: &[Pass]) -> Option<usize>
    ensures { result ≡ position (λ p. p.number == 0) passes.now }
{
    passes.iter().position(|pass| pass.number == 0)
}

fn has_number(passes: &[Pass], number: u32) -> bool
    ensures { result ≡ has_number number passes.now }
{
    passes.iter().any(|pass| pass.number == number)
}

fn has_below(passes: &[Pass], count: u32) -> bool
    ensures { result ≡ has_below count passes.now }
{
    let mut left = count;
    while left > 0 {
        left -= 1;
        if !has_number(passes, left) {
            return false;
        }
    }
    true
}
