//! The call for words of which one isn't UTF-8.

ghost use Rattle.std.specs.Prelude.{◌≡◌, ◌<◌, ◌⊎◌, ◌++◌, Some, [], IfOk, map, string_bytes, codes};
ghost use Rattle.std.specs.Fmt.{decimal};
ghost use Rattle.outside.specs.Causes.{Stood};
ghost use Rattle.outside.specs.Told.{Takes, TakesFront};
ghost use Rattle.outside.specs.Openings.{OpensFront};
ghost use Rattle.outside.specs.Roles.{at};
ghost use Rattle.outside.specs.declared.roles.Role.TheVariants.{Messages};
ghost use Rattle.run_files.specs.Ledgers.{only};
ghost use Rattle.rrvm.specs.Openings.{message_openings};
ghost use Rattle.rrvm.specs.RawWords.{raw_line};

use crate::message::word;
use crate::top::{Status, say};
use command_line::{Line, read_line};
use outside::World;
use std::alloc::{AllocError, Global};

fn bad_word(alloc: Global, number: usize, word: &[u8]) -> Result<Vec<u8>, AllocError>
    ensures { IfOk result (λ v. v.items
        ≡ codes "rrvm: bad word " ++ decimal number ++ codes ": " ++ word.now ++ codes "\n") }
{
    let start = format!(in alloc; "rrvm: bad word {number}: ")?;
    let mut line = start.into_bytes();
    line.extend_from_slice(word)?;
    line.extend_from_slice(b"\n")?;
    Ok(line)
}

/// The line that says which word is bad.
fn raw_message(alloc: Global, words: &[String], raw: &[u8]) -> Result<Vec<u8>, AllocError>
    ensures { IfOk result (λ v. v.items ≡ raw_line (map string_bytes words.now) raw.now) }
{
    match read_line(words) {
        Line::BadWord(number) => bad_word(alloc, number, word(words, number).as_bytes()),
        _ => bad_word(alloc, words.len(), raw),
    }
}

/// Says which word is bad, where one that isn't UTF-8 comes after these words. It is bad whatever
/// it is for, unless one of these is bad before it. The messages get its bytes as they are.
pub fn rrvm_raw<W: World>(alloc: Global, words: &[String], raw: &[u8], world: &mut W) -> Status
    ensures bad_word { (result.code ≡ 1) ⊎ (result.code ≡ 30) }
    ensures said { at (W.ledger world.old).opened Messages < at (W.ledger world.new).opened Messages
        → TakesFront (Some []) (at (W.ledger world.new).last Messages)
        (raw_line (map string_bytes words.now) raw.now) }
    ensures all_said { result.code ≡ 1
        → Stood (at (W.ledger world.old).faults Messages) (at (W.ledger world.new).faults Messages)
        → Takes (Some []) (at (W.ledger world.new).last Messages)
        (raw_line (map string_bytes words.now) raw.now) }
    ensures openings { OpensFront (W.ledger world.old).openings (W.ledger world.new).openings
        message_openings }
    ensures rest { W.ledger world.new ≡ only Messages (W.ledger world.old) (W.ledger world.new) }
{
    let Ok(text) = raw_message(alloc, words, raw) else {
        return Status { code: 30 };
    };
    match say(&text, world) {
        Ok(()) => Status { code: 1 },
        Err(_) => Status { code: 30 },
    }
}
