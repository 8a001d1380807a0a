//! What is printed and committed.

ghost use Rattle.std.specs.Prelude.{◌≡◌, [], IsErrOf, OnOk};
ghost use Rattle.pl_engine.specs.Answers.{Answers};
ghost use Rattle.pl_engine.specs.Engines.{kept, world};
ghost use Rattle.pl_engine.specs.declared.stop.Stop.TheVariants.{Memory};
ghost use Rattle.pl_world.specs.Raising.{printed};
ghost use Rattle.pl_world.specs.Transactions.{committed};

use crate::engine::Engine;
use crate::port::{Port, PortFail};
use crate::stop::Stop;
use pl_world::Outcome;

/// Prints these lines. `Say` comes where printing failed.
pub fn say<P: Port>(engine: &Engine, port: &mut P, lines: &[u8]) -> Result<Outcome, Stop>
    requires fits { P.fits (world engine.now).last port.old }
    ensures { Answers P.Port (printed lines.now (world engine.now)) result engine.now engine.now
        port.old port.new }
{
    match port.say(lines) {
        Ok(()) => Ok(Outcome::Next),
        Err(PortFail::Device) => Err(Stop::Say),
        Err(PortFail::Memory) => Err(Stop::Memory),
    }
}

/// Commits what was done since the last commit. `Disk` comes where storing failed, and `Memory`
/// before anything is stored.
pub fn commit<P: Port>(engine: &mut Engine, port: &mut P) -> Result<Outcome, Stop>
    requires unmarked { (world engine.old).depth ≡ 0 }
    requires fits { P.fits (world engine.old).last port.old }
    ensures is { Answers P.Port (committed (world engine.old)) result engine.old engine.new
        port.old port.new }
    ensures memory { IsErrOf result Memory → P.took (world engine.old).last [] port.old port.new }
    ensures keeps { OnOk result (kept engine.new ≡ kept engine.old) }
{
    match port.commit(engine.journal.journal()) {
        Ok(()) => {
            engine.journal.seal();
            Ok(Outcome::Next)
        }
        Err(PortFail::Device) => Err(Stop::Disk),
        Err(PortFail::Memory) => Err(Stop::Memory),
    }
}
