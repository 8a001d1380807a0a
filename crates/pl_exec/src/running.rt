//! Tasks over any port.

ghost use Rattle.std.specs.Prelude.{◌≡◌, ◌≤◌, OnOk};
ghost use Rattle.pl_control.specs.pl_engine.Answers.{Answers};
ghost use Rattle.pl_control.specs.pl_engine.Engines.{kept, world};
ghost use Rattle.pl_control.specs.pl_engine.Runs.{run_as};
ghost use Rattle.pl_control.specs.pl_engine.Texts.{do_bodies};

use crate::bodies::Bodies;
use crate::tasks::task;
use pl_control::pl_engine::{Engine, Port, Stop, Task};
use pl_world::Outcome;

/// Runs a task: a statement, the body of a routine, or what a statement asks. The room is how many
/// turns a loop has at the most; no fewer than there are steps left.
pub fn run<P: Port>(
    room: u64,
    engine: &mut Engine,
    port: &mut P,
    t: Task<'_>,
) -> Result<Outcome, Stop>
    requires room { (world engine.old).steps ≤ room }
    requires fits { P.fits (world engine.old).last port.old }
    ensures is { Answers P.Port (run_as do_bodies room t.entry (world engine.old)) result
        engine.old engine.new port.old port.new }
    ensures keeps { OnOk result (kept engine.new ≡ kept engine.old) }
{
    task(room, run, &Bodies, engine, port, t)
}
