//! Statements one after another. What a statement holds is run by a function that is passed in, so
//! that each form is proved by itself. It answers what statements ask of their expressions, too.

ghost use Rattle.std.specs.Prelude.{◌≡◌, ◌≤◌, OnOk};
ghost use Rattle.pl_engine.specs.Answers.{Answers};
ghost use Rattle.pl_engine.specs.Asks.{asked};
ghost use Rattle.pl_engine.specs.Engines.{kept, world};
ghost use Rattle.pl_engine.specs.Runs.{Runs};
ghost use Rattle.pl_engine.specs.Texts.{do_bodies};
ghost use Rattle.pl_world.specs.Running as spec;
ghost use Rattle.pl_world.specs.Running.{statement};
ghost use Rattle.pl_world.specs.Statements.{run_within, runner_for};

use crate::asking::Ask;
use crate::engine::Engine;
use crate::port::Port;
use crate::spot::Spot;
use crate::stop::Stop;
use pl_bodies::{Body, Statement};
use pl_world::Outcome;

/// What is run. A statement and a body begin with a step.
#[derive(Clone, Copy)]
pub enum Task<'a> {
    Statement(&'a Statement),
    /// The body of a routine that is called.
    Body(&'a Body),
    /// What the statement at this spot asks.
    Ask(&'a Spot, Ask<'a>),
}

/// What runs statements inside of others, and bodies, and answers what statements ask.
#[derive(Clone, Copy)]
pub struct Runner<F> {
    /// How many turns a loop has at the most; no fewer than there are steps left.
    pub room: u64,
    pub run: F,
}

// One statement.
fn one<P: Port, F>(
    runner: &Runner<F>,
    engine: &mut Engine,
    port: &mut P,
    s: &Statement,
) -> Result<Outcome, Stop>
where
    F: Fn(u64, &mut Engine, &mut P, Task<'_>) -> Result<Outcome, Stop>,
    requires room { (world engine.old).steps ≤ runner.now.room }
    requires fits { P.fits (world engine.old).last port.old }
    requires runs { Runs P.Port runner.now.room (F.pre runner.now.run) (F.post runner.now.run) }
    ensures is { Answers P.Port
        (run_within do_bodies runner.now.room (statement s.now) (world engine.old)) result
        engine.old engine.new port.old port.new }
    ensures keeps { OnOk result (kept engine.new ≡ kept engine.old) }
{
    (runner.run)(runner.room, engine, port, Task::Statement(s))
}

/// Statements one after another, up to the first that doesn't end with Next.
pub fn all<P: Port, F>(
    runner: &Runner<F>,
    engine: &mut Engine,
    port: &mut P,
    statements: &[Statement],
) -> Result<Outcome, Stop>
where
    F: Fn(u64, &mut Engine, &mut P, Task<'_>) -> Result<Outcome, Stop>,
    requires room { (world engine.old).steps ≤ runner.now.room }
    requires fits { P.fits (world engine.old).last port.old }
    requires runs { Runs P.Port runner.now.room (F.pre runner.now.run) (F.post runner.now.run) }
    ensures is { Answers P.Port
        (spec.all (runner_for do_bodies runner.now.room) statements.now (world engine.old)) result
        engine.old engine.new port.old port.new }
    ensures keeps { OnOk result (kept engine.new ≡ kept engine.old) }
{
    for s in statements {
        match one(runner, engine, port, s)? {
            Outcome::Next => {}
            other => return Ok(other),
        }
    }
    Ok(Outcome::Next)
}

/// What the statement at this spot asks.
pub fn ask<P: Port, F>(
    runner: &Runner<F>,
    engine: &mut Engine,
    port: &mut P,
    at: Spot,
    what: Ask<'_>,
) -> Result<Outcome, Stop>
where
    F: Fn(u64, &mut Engine, &mut P, Task<'_>) -> Result<Outcome, Stop>,
    requires room { (world engine.old).steps ≤ runner.now.room }
    requires fits { P.fits (world engine.old).last port.old }
    requires runs { Runs P.Port runner.now.room (F.pre runner.now.run) (F.post runner.now.run) }
    ensures is { Answers P.Port
        (asked (runner_for do_bodies runner.now.room) at what.entry (world engine.old)) result
        engine.old engine.new port.old port.new }
    ensures keeps { OnOk result (kept engine.new ≡ kept engine.old) }
{
    (runner.run)(runner.room, engine, port, Task::Ask(&at, what))
}
