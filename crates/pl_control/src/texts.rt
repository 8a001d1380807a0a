//! DO: PostgreSQL manual, "DO".

ghost use Rattle.std.specs.Prelude.{◌≡◌, ◌≤◌, [], OnOk};
ghost use Rattle.pl_engine.specs.Answers.{Answers};
ghost use Rattle.pl_engine.specs.Engines.{kept, world};
ghost use Rattle.pl_engine.specs.Runs.{Runs};
ghost use Rattle.pl_engine.specs.Texts.{do_bodies};
ghost use Rattle.pl_typing.specs.Resolved.{Gives};
ghost use Rattle.pl_engine.specs.pl_world.Calls.{called, nameless};
ghost use Rattle.pl_engine.specs.pl_world.Statements.{runner_for};
ghost use Rattle.pl_engine.specs.pl_world.Transactions as spec;
ghost use Rattle.pl_engine.specs.pl_world.World.{and_then};

use crate::callees::{Called, call_end, run_called};
use pl_base::{Fail, Held, List, Message, Name, Origin, Place, State, Txt};
use pl_bodies::Body;
use pl_engine::pl_declared::Static;
use pl_engine::pl_define::read_do_text;
use pl_engine::pl_world::Outcome;
use pl_engine::{Engine, Port, Runner, Spot, Stop, Task};
use pl_typing::ScopeFail;
use pl_waiting::waits;
use std::alloc::Global;

// The error that a DO has before it runs.
fn unread(state: State) -> Fail
    ensures { result ≡ spec.unread state }
{
    Fail {
        state,
        message: Message::Standard,
        detail: None,
        hint: None,
        origin: Origin::Engine,
        place: Place {
            routine: Name::NONE,
            line: 1,
            ordinal: 0,
        },
    }
}

fn is_known(language: &Option<Name>) -> bool
    ensures { result ≡ spec.is_known language.now }
{
    match language {
        None => true,
        Some(language) => language.as_bytes() == b"plpgsql".as_slice(),
    }
}

// The body that a DO's text is, or why it isn't run.
#[tactic(auto, unfolding(pl_engine::specs::Texts::do_bodies))]
fn read(alloc: Global, language: &Option<Name>, text: &Txt) -> Result<Held<Body>, ScopeFail>
    ensures { Gives result (spec.body_read do_bodies language.now text.now) }
{
    if !is_known(language) {
        return Err(ScopeFail::State(State::FEATURE_NOT_SUPPORTED));
    }
    let b = read_do_text(alloc, text)?;
    if waits(b.get()) {
        return Err(ScopeFail::State(State::FEATURE_NOT_SUPPORTED));
    }
    Ok(b)
}

// The body runs in a call of its own, which has no name and no arguments.
fn run_nameless<P: Port, F>(
    runner: &Runner<F>,
    engine: &mut Engine,
    port: &mut P,
    at: Spot,
    b: &Body,
) -> Result<Outcome, Stop>
where
    F: Fn(u64, &mut Engine, &mut P, Task<'_>) -> Result<Outcome, Stop>,
    requires room { (world engine.old).steps ≤ runner.now.room }
    requires fits { P.fits (world engine.old).last port.old }
    requires runs { Runs P.Port runner.now.room (F.pre runner.now.run) (F.post runner.now.run) }
    ensures is { Answers P.Port
        (and_then (called (runner_for do_bodies runner.now.room) (nameless b.now) [] at
        (world engine.old)) spec.after_call) result
        engine.old engine.new port.old port.new }
    ensures keeps { OnOk result (kept engine.new ≡ kept engine.old) }
{
    let alloc = engine.alloc();
    let declared = Static::entering(alloc, Name::NONE, &[], None)?;
    let called = Called {
        routine: Name::NONE,
        declared,
        result: None,
    };
    let end = run_called(runner, engine, port, at, called, List::new(alloc), b)?;
    Ok(call_end(end))
}

/// DO: its body runs as a call without a name. An error that it has before it runs stands on the
/// first line: 0A000 for another language, and else why the text is no body.
pub fn do_text<P: Port, F>(
    runner: &Runner<F>,
    engine: &mut Engine,
    port: &mut P,
    at: Spot,
    language: &Option<Name>,
    text: &Txt,
) -> Result<Outcome, Stop>
where
    F: Fn(u64, &mut Engine, &mut P, Task<'_>) -> Result<Outcome, Stop>,
    requires room { (world engine.old).steps ≤ runner.now.room }
    requires fits { P.fits (world engine.old).last port.old }
    requires runs { Runs P.Port runner.now.room (F.pre runner.now.run) (F.post runner.now.run) }
    ensures is { Answers P.Port
        (spec.does (runner_for do_bodies runner.now.room) at language.now text.now
        (world engine.old)) result
        engine.old engine.new port.old port.new }
    ensures keeps { OnOk result (kept engine.new ≡ kept engine.old) }
{
    match read(engine.alloc(), language, text) {
        Ok(b) => run_nameless(runner, engine, port, at, b.get()),
        Err(ScopeFail::State(state)) => Ok(Outcome::Fail(unread(state))),
        Err(ScopeFail::Memory) => Err(Stop::Memory),
    }
}
