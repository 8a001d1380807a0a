//! Tasks inside of the calls that stand in expressions: what they print is held.

ghost use Rattle.std.specs.Prelude.{◌≡◌, ◌≤◌, OnOk};
ghost use Rattle.pl_control.specs.pl_engine.Answers.{Answers};
ghost use Rattle.pl_control.specs.pl_engine.Engines.{kept, world};
ghost use Rattle.pl_control.specs.pl_engine.Runs.{run_as};
ghost use Rattle.pl_control.specs.pl_engine.Texts.{do_bodies};

use crate::tasks::{body, task};
use pl_bodies::Body;
use pl_control::pl_engine::{BodyRunner, Engine, Held, Port, Stop, Task};
use pl_world::Outcome;

/// Runs bodies whose statements are run by a function.
#[derive(Clone, Copy)]
struct BodiesBy<F> {
    run: F,
}

impl<F> BodyRunner for BodiesBy<F>
where
    F: Fn(u64, &mut Engine, &mut Held, Task<'_>) -> Result<Outcome, Stop> + Copy,
{
    ghost use Rattle.pl_exec.specs.Below.{RunsBelow};

    ghost runs = { λ b room. RunsBelow ⟦<Held as Port>⟧ room (F.pre b.run) (F.post b.run) };

    fn run_body(
        &self,
        room: u64,
        engine: &mut Engine,
        held: &mut Held,
        b: &Body,
    ) -> Result<Outcome, Stop> {
        body(room, self.run, engine, held, b)
    }
}

/// A task inside of a call that stands in an expression.
pub(crate) fn run_held(
    room: u64,
    engine: &mut Engine,
    held: &mut Held,
    t: Task<'_>,
) -> Result<Outcome, Stop>
    requires room { (world engine.old).steps ≤ room }
    ensures is { Answers ⟦<Held as Port>⟧ (run_as do_bodies room t.entry (world engine.old)) result
        engine.old engine.new held.old held.new }
    ensures keeps { OnOk result (kept engine.new ≡ kept engine.old) }
{
    let bodies = BodiesBy { run: run_held };
    task(room, run_held, &bodies, engine, held, t)
}
