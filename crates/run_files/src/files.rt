//! A named file, read whole.

ghost use Rattle.std.specs.Prelude.{◌≡◌, ◌≤◌, ◌<◌, ◌^◌, [], ◌∷◌, length, Some, IfOk, IfSome, OnOk, IsErrOf};
ghost use Rattle.outside.specs.Causes.{Rose};
ghost use Rattle.outside.specs.Roles.{at};
ghost use Rattle.outside.specs.Openings.{Opens, OpensFront};
ghost use Rattle.outside.specs.declared.openings.Opening.TheVariants.{Source as SourceOpening};
ghost use Rattle.run_files.specs.Files.{FailsToOpen, CountsSame};
ghost use Rattle.run_files.specs.Ledgers.{only_opening, Balanced};

use crate::reading::{ReadError, read_all};
use outside::{OpenError, Role, World};
use std::alloc::Global;

/// Why a file wasn't read.
#[derive(Clone, Copy, Debug, PartialEq, Eq)]
pub enum FileFault {
    CannotOpen,
    CannotRead,
    /// It is above the limit.
    TooLong,
    NoMemory,
}

/// Reads the file of a role and name whole, where it has at most so many bytes.
#[tactic(auto, using(outside::proofs::Fronts::openings, crate::proofs::Roles::roles))]
pub fn read_file<W: World>(
    alloc: Global,
    role: Role,
    name: &str,
    limit: usize,
    world: &mut W,
) -> Result<Vec<u8>, FileFault>
    requires { limit < 2 ^ 32 }
    ensures whole { IfOk result (λ v. IfSome ((W.ledger world.old).names name.now)
        (λ file. v.items ≡ file)) }
    ensures short { IfOk result (λ v. length v.items ≤ limit) }
    ensures kept { OnOk result (CountsSame role (W.ledger world.old) (W.ledger world.new)) }

    ensures long { IsErrOf result FileFault.TooLong → IfSome ((W.ledger world.old).names name.now)
        (λ file. limit < length file) }
    ensures unopened { IsErrOf result FileFault.CannotOpen
        → FailsToOpen (SourceOpening role (Some name.now))
        (W.ledger world.old) (W.ledger world.new) }
    ensures unread { IsErrOf result FileFault.CannotRead
        → Rose (at (W.ledger world.old).faults role) (at (W.ledger world.new).faults role) }

    ensures openings { OpensFront (W.ledger world.old).openings (W.ledger world.new).openings
        (SourceOpening role (Some name.now) ∷ []) }
    ensures opened { OnOk result (Opens (W.ledger world.old).openings
        (W.ledger world.new).openings (SourceOpening role (Some name.now) ∷ [])) }
    ensures opening_kept { (IsErrOf result FileFault.CannotOpen → ⊥)
        → (W.ledger world.new).opening_faults ≡ (W.ledger world.old).opening_faults }
    ensures source_kept { (IsErrOf result FileFault.CannotRead → ⊥)
        → at (W.ledger world.new).faults role ≡ at (W.ledger world.old).faults role }
    ensures balanced { Balanced role (W.ledger world.old) (W.ledger world.new) }
    ensures rest { W.ledger world.new
        ≡ only_opening role (W.ledger world.old) (W.ledger world.new) }
{
    let mut source = match world.source(role, Some(name)) {
        Ok(source) => source,
        Err(OpenError::Failed) => return Err(FileFault::CannotOpen),
        Err(OpenError::NoMemory) => return Err(FileFault::NoMemory),
    };
    let answer = read_all(alloc, &mut source, limit);
    world.take_source(role, source);
    match answer {
        Ok(file) => Ok(file),
        Err(ReadError::Failed) => Err(FileFault::CannotRead),
        Err(ReadError::TooLong) => Err(FileFault::TooLong),
        Err(ReadError::NoMemory) => Err(FileFault::NoMemory),
    }
}
