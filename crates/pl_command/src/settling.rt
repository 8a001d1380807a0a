//! How a command ends that is a transaction of its own: PostgreSQL manual, "Transactions".

ghost use Rattle.std.specs.Prelude.{◌≡◌, [], IsErrOf, OnOk};
ghost use Rattle.pl_command.specs.Ends.{IsIdle, as_ran};
ghost use Rattle.pl_control.specs.pl_engine.Answers.{Answers};
ghost use Rattle.pl_control.specs.pl_engine.Engines.{kept, world};
ghost use Rattle.pl_control.specs.pl_engine.declared.stop.Stop.TheVariants.{Memory as WantOfMemory};
ghost use Rattle.pl_world.specs.Sessions.{alone};
ghost use Rattle.pl_world.specs.World.{ends};

use pl_control::pl_engine::{Engine, Port, Stop, commit};
use pl_world::Reply;

/// Commits what a command did that answers this, or goes back to the last commit where it failed.
/// `Memory` comes before anything is stored.
pub fn settle<P: Port>(engine: &mut Engine, port: &mut P, reply: Reply) -> Result<Reply, Stop>
    requires idle { IsIdle (world engine.old) }
    requires fits { P.fits (world engine.old).last port.old }
    ensures is { Answers P.Port (as_ran (alone (ends reply (world engine.old)))) result
        engine.old engine.new port.old port.new }
    ensures memory { IsErrOf result WantOfMemory
        → P.took (world engine.old).last [] port.old port.new }
    ensures keeps { OnOk result (kept engine.new ≡ kept engine.old) }
{
    if reply.fail.is_some() {
        engine.reset();
        return Ok(reply);
    }
    match commit(engine, port) {
        Ok(_) => Ok(reply),
        Err(stop) => Err(stop),
    }
}
