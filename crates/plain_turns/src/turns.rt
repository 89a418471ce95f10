//! Plain turns.

ghost use Rattle.std.specs.Prelude.{◌≡◌, ◌≤◌, IfSome};
ghost use Rattle.rv_exec.specs.Plain.{at_pc, IsAligned, GoesOn};
ghost use Rattle.plain_turns.specs.Turns.{plain_attempt, PlainTurns};

use rv_decode::{DecodeCache, KnownWords};
use rv_exec::{Hart, execute_plain};
use system_bus::Memory;

/// A plain turn of a known word at an address, and the next turn's address. None where it has to be
/// made in another way: then nothing changed. The hart's own pc plays no part.
#[inline(always)]
#[tactic(auto, unfolding(crate::specs::Turns::plain_attempt))]
fn turn(hart: &mut Hart, pc: u32, memory: &mut Memory, words: &KnownWords<'_>) -> Option<u32>
    requires { IsAligned pc }
    ensures turn { GoesOn (plain_attempt (at_pc hart.old pc) memory.old)
        hart.old memory.old result hart.new memory.new }
    ensures aligned { IfSome result IsAligned }
    ensures csrs { hart.new.csrs ≡ hart.old.csrs }
    ensures mode { hart.new.mode ≡ hart.old.mode }
{
    let word = memory.read_aligned(pc, 4)?;
    let ins = words.instruction(pc, word)?;
    execute_plain(hart, pc, memory, ins, word)
}

/// Makes plain turns in a row, at most `most`, and answers how many. It stops early where the next
/// turn isn't plain or its word not known. The control registers stay as they are: no turn is
/// counted in them.
#[inline(always)]
#[tactic(auto, using(crate::proofs::InRow::turns))]
pub fn run(hart: &mut Hart, memory: &mut Memory, cache: &DecodeCache, most: u32) -> u32
    ensures most { result ≤ most }
    ensures turns { PlainTurns hart.old memory.old result hart.new memory.new }
    ensures csrs { hart.new.csrs ≡ hart.old.csrs }
    ensures mode { hart.new.mode ≡ hart.old.mode }
{
    let Some(words) = cache.known() else {
        return 0;
    };
    let mut pc = hart.pc;
    if pc % 4 != 0 {
        return 0;
    }
    let mut left = most;
    while left > 0 {
        let Some(next) = turn(hart, pc, memory, &words) else {
            break;
        };
        pc = next;
        left -= 1;
    }
    hart.pc = pc;
    most - left
}
