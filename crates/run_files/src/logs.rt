//! A named log, which is read as a stream.

ghost use Rattle.std.specs.Prelude.{◌≡◌, Some, IfOk, OnOk, IsErrOf};
ghost use Rattle.outside.specs.Ledger.{opens, opening_fails};
ghost use Rattle.outside.specs.declared.openings.Opening.TheVariants.{Source as SourceOpening};
ghost use Rattle.outside.specs.declared.roles.Role.TheVariants.{LogIn};
ghost use Rattle.event_log.specs.Reading.{none_read, reading};

use event_log::{LogReader, ReadAhead};
use outside::{OpenError, Role, World};
use std::alloc::Global;

/// Opens the log of that name. Its reader has read nothing.
pub fn open_log<W: World>(
    alloc: Global,
    name: &str,
    world: &mut W,
) -> Result<LogReader<W::Source>, OpenError>
    ensures reader { IfOk result
        (λ r. r ≡ reading ((W.ledger world.old).names name.now) 0 (none_read 0)) }
    ensures opened { OnOk result
        (W.ledger world.new ≡ opens (W.ledger world.old) LogIn (Some name.now)) }
    ensures failed { IsErrOf result OpenError.Failed → W.ledger world.new
        ≡ opening_fails (W.ledger world.old) (SourceOpening LogIn (Some name.now)) }
    ensures memory { IsErrOf result OpenError.NoMemory → W.ledger world.new ≡ W.ledger world.old }
{
    let Ok(unread) = ReadAhead::new(alloc) else {
        return Err(OpenError::NoMemory);
    };
    let source = world.source(Role::LogIn, Some(name))?;
    Ok(LogReader::over(source, unread))
}
