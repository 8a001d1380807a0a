//! What runs the bodies of the routines that expressions call.

ghost use Rattle.std.specs.Prelude.{◌≡◌, ◌≤◌, ℕ, OnOk};
ghost use Rattle.pl_engine.specs.Answers.{Answers};
ghost use Rattle.pl_engine.specs.Engines.{kept, world};
ghost use Rattle.pl_engine.specs.Texts.{do_bodies};
ghost use Rattle.pl_world.specs.Running.{body};
ghost use Rattle.pl_world.specs.Statements.{run_within};

use crate::engine::Engine;
use crate::held::Held;
use crate::port::Port;
use crate::stop::Stop;
use pl_bodies::Body;
use pl_world::Outcome;

/// What runs the bodies of the routines that expressions call. What they print is held.
pub trait BodyRunner {
    /// It runs bodies where there is room for so many steps.
    ghost runs: { Self → ℕ → Type 0 };

    /// Runs the body of a call that was entered.
    fn run_body(
        &self,
        room: u64,
        engine: &mut Engine,
        held: &mut Held,
        b: &Body,
    ) -> Result<Outcome, Stop>
        requires can { runs self.now room }
        requires room { (world engine.old).steps ≤ room }
        ensures is { Answers ⟦<Held as Port>⟧ (run_within do_bodies room (body b.now)
            (world engine.old)) result
            engine.old engine.new held.old held.new }
        ensures keeps { OnOk result (kept engine.new ≡ kept engine.old) };
}

/// What makes the calls that stand in expressions.
#[derive(Clone, Copy)]
pub struct Calls<'r, R> {
    /// No fewer than there are steps left.
    pub room: u64,
    pub bodies: &'r R,
}
