//! What a log comes to that is run over a console that nobody sees.

ghost use Rattle.std.specs.Prelude.{◌≡◌, ◌∷◌, [], List, ℕ, OnOk};
ghost use Rattle.outside.specs.Causes.{Rose};
ghost use Rattle.outside.specs.declared.roles.Role.TheVariants.{Firmware as FirmwareRole};
ghost use Rattle.outside.specs.Openings.{Opens, OpensFront};
ghost use Rattle.event_log.specs.Reading.{ahead, none_read};
ghost use Rattle.run_files.specs.Files.{firmware_opening};
ghost use Rattle.run_files.specs.Ledgers.{Balanced};
ghost use Rattle.commands.specs.Asking.{replaying_of};
ghost use Rattle.commands.specs.Playing.{PlayingKeptBut};
ghost use Rattle.check_command.specs.Checks.{judged as judged_of, Judges, only_judging, verdict_fault};

use crate::nowhere::Nowhere;
use crate::tally::Tally;
use board::Steps;
use commands::{Outcome, header_outcome, image_outcome};
use event_log::LogReader;
use outside::{Careful, World};
use rr_engine::{ReplayEnd, replay_one};
use run_files::read_image;
use std::alloc::Global;
use std::sync::ledger::Ledger;

/// How the run ended.
fn judged(end: ReplayEnd) -> Result<Tally, Outcome>
    ensures { result ≡ judged_of end }
{
    match end {
        ReplayEnd::End {
            reason,
            code,
            accepted,
            turns,
        } => Ok(Tally {
            events: accepted,
            turns,
            reason,
            code,
        }),
        ReplayEnd::ConsoleWrite => Err(Outcome::QuietFailed),
        ReplayEnd::LogRead => Err(Outcome::LogUnreadable),
        ReplayEnd::LogTooLong => Err(Outcome::LogTooLong),
        ReplayEnd::Refused(refusal) => Err(Outcome::LogRefused(refusal)),
        ReplayEnd::NoMemory => Err(Outcome::NoMemory),
    }
}

/// The header, the images that it names, and the run.
#[tactic(auto, using(outside::proofs::Fronts::openings))]
pub(crate) fn judge<W: World, L: Ledger>(
    alloc: Global,
    bios: &str,
    log: &mut LogReader<W::Source>,
    world: &mut W,
    steps: &mut Steps<L>,
) -> Result<Tally, Outcome>
    requires { log.old.unread ≡ none_read 0 }
    ensures judges { (name : List ℕ) → Judges (replaying_of name bios.now) (ahead log.old)
        (W.ledger world.old) (W.ledger world.new) (Rose log.old.faults log.new.faults) result }
    ensures kept { PlayingKeptBut (verdict_fault result) (W.ledger world.old)
        (W.ledger world.new) log.old.faults log.new.faults }
    ensures openings { OpensFront (W.ledger world.old).openings (W.ledger world.new).openings
        (firmware_opening bios.now ∷ []) }
    ensures opened { OnOk result (Opens (W.ledger world.old).openings
        (W.ledger world.new).openings (firmware_opening bios.now ∷ [])) }
    ensures balanced { Balanced FirmwareRole (W.ledger world.old) (W.ledger world.new) }
    ensures rest { W.ledger world.new ≡ only_judging (W.ledger world.old) (W.ledger world.new) }
{
    let header = match log.header() {
        Ok(header) => header,
        Err(error) => return Err(header_outcome(error)),
    };
    let firmware = match read_image(alloc, bios, &header, world) {
        Ok(firmware) => firmware,
        Err(fault) => return Err(image_outcome(fault)),
    };
    let mut unseen = Careful::new(Nowhere {});
    judged(replay_one(alloc, &header, &firmware, log, &mut unseen, steps))
}
