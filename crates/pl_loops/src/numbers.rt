//! FOR over numbers: PostgreSQL manual, "PL/pgSQL", "Simple Loops".

ghost use Rattle.std.specs.Prelude.{◌≡◌, ◌≤◌, OnOk};
ghost use Rattle.pl_engine.specs.Answers.{Answers};
ghost use Rattle.pl_engine.specs.Engines.{Quiet, kept, world};
ghost use Rattle.pl_engine.specs.Runs.{Runs};
ghost use Rattle.pl_engine.specs.Texts.{do_bodies};
ghost use Rattle.pl_loops.specs.Ranges.{AreIntegers, numbers_in};
ghost use Rattle.pl_engine.specs.pl_world.Control as spec;
ghost use Rattle.pl_engine.specs.pl_world.Statements.{runner_for};

use crate::at_once::turn_at_once;
use crate::ranges::{Counting, range};
use crate::turns::going;
use pl_base::{Boxed, Name, State, Ty, Value};
use pl_bodies::Statement;
use pl_engine::pl_world::Outcome;
use pl_engine::{Ask, Engine, Port, Runner, Spot, Stop, Task, ask};
use pl_flow::number_of;
use pl_quick::Quick;
use pl_tree::Expr;

/// A FOR over numbers.
#[derive(Clone, Copy)]
pub struct Numbers<'a> {
    pub label: Option<Name>,
    pub variable: Name,
    /// REVERSE
    pub is_reverse: bool,
    pub first: &'a Expr,
    pub last: &'a Expr,
    /// BY
    pub step: &'a Option<Boxed<Expr>>,
    pub body: &'a [Statement],
}

// A turn for each number. The variable has this place.
fn each<P: Port, F>(
    runner: &Runner<F>,
    engine: &mut Engine,
    port: &mut P,
    at: Spot,
    label: &Option<Name>,
    to: usize,
    body: &[Statement],
    range: Counting,
) -> Result<Outcome, Stop>
where
    F: Fn(u64, &mut Engine, &mut P, Task<'_>) -> Result<Outcome, Stop>,
    requires room { (world engine.old).steps ≤ runner.now.room }
    requires fits { P.fits (world engine.old).last port.old }
    requires runs { Runs P.Port runner.now.room (F.pre runner.now.run) (F.post runner.now.run) }
    requires integers { AreIntegers (numbers_in range) }
    ensures is { Answers P.Port
        (spec.each (runner_for do_bodies runner.now.room) at label.now to body.now
        (numbers_in range) (world engine.old)) result
        engine.old engine.new port.old port.new }
    ensures keeps { OnOk result (kept engine.new ≡ kept engine.old) }
{
    let mut left = range;
    let mut quick = Quick::new(engine.alloc());
    while let Some(number) = left.next() {
        engine.set(to, Value::Int(number));
        let end = turn_at_once(runner, engine, port, &mut quick, at, label, body)?;
        match going(end) {
            Ok(()) => {}
            Err(end) => return Ok(end),
        }
    }
    Ok(Outcome::Next)
}

// Behind the turns: the variable is gone, and FOUND says whether there was a turn, unless an error
// ended the loop.
fn leave(engine: &mut Engine, range: Counting, end: Outcome) -> Outcome
    ensures is { Quiet (spec.for_left (numbers_in range) end (world engine.old)) result
        engine.old engine.new }
    ensures keeps { kept engine.new ≡ kept engine.old }
{
    engine.close();
    match end {
        Outcome::Fail(fail) => Outcome::Fail(fail),
        other => {
            engine.set_found(range.count > 0);
            other
        }
    }
}

// The variable is declared, and there is a turn for each number.
fn over<P: Port, F>(
    runner: &Runner<F>,
    engine: &mut Engine,
    port: &mut P,
    at: Spot,
    numbers: &Numbers<'_>,
    range: Counting,
) -> Result<Outcome, Stop>
where
    F: Fn(u64, &mut Engine, &mut P, Task<'_>) -> Result<Outcome, Stop>,
    requires room { (world engine.old).steps ≤ runner.now.room }
    requires fits { P.fits (world engine.old).last port.old }
    requires runs { Runs P.Port runner.now.room (F.pre runner.now.run) (F.post runner.now.run) }
    requires integers { AreIntegers (numbers_in range) }
    ensures is { Answers P.Port
        (spec.over_numbers (runner_for do_bodies runner.now.room) at numbers.now.label
        numbers.now.variable numbers.now.body.now (numbers_in range) (world engine.old)) result
        engine.old engine.new port.old port.new }
    ensures keeps { OnOk result (kept engine.new ≡ kept engine.old) }
{
    engine.open(numbers.label)?;
    engine.declare(numbers.variable, Ty::Int, false, Value::Null)?;
    let to = engine.newest_place();
    let end = each(
        runner,
        engine,
        port,
        at,
        &numbers.label,
        to,
        numbers.body,
        range,
    )?;
    Ok(leave(engine, range, end))
}

// From the first bound to the last one, so far from one to the next.
fn stepping<P: Port, F>(
    runner: &Runner<F>,
    engine: &mut Engine,
    port: &mut P,
    at: Spot,
    numbers: &Numbers<'_>,
    first: i32,
    last: i32,
    by: i32,
) -> Result<Outcome, Stop>
where
    F: Fn(u64, &mut Engine, &mut P, Task<'_>) -> Result<Outcome, Stop>,
    requires room { (world engine.old).steps ≤ runner.now.room }
    requires fits { P.fits (world engine.old).last port.old }
    requires runs { Runs P.Port runner.now.room (F.pre runner.now.run) (F.post runner.now.run) }
    ensures is { Answers P.Port
        (spec.positive by at (world engine.old) (λ by w.
        spec.over_numbers (runner_for do_bodies runner.now.room) at
        numbers.now.label numbers.now.variable numbers.now.body.now
        (spec.numbers numbers.now.is_reverse first last by) w)) result
        engine.old engine.new port.old port.new }
    ensures keeps { OnOk result (kept engine.new ≡ kept engine.old) }
{
    if by <= 0 {
        return Ok(engine.raise(State::INVALID_PARAMETER_VALUE, at));
    }
    let counting = range(numbers.is_reverse, first, last, by);
    over(runner, engine, port, at, numbers, counting)
}

// From the first bound to the last one. BY is 1 where it is left out.
fn between<P: Port, F>(
    runner: &Runner<F>,
    engine: &mut Engine,
    port: &mut P,
    at: Spot,
    numbers: &Numbers<'_>,
    first: i32,
    last: i32,
) -> Result<Outcome, Stop>
where
    F: Fn(u64, &mut Engine, &mut P, Task<'_>) -> Result<Outcome, Stop>,
    requires room { (world engine.old).steps ≤ runner.now.room }
    requires fits { P.fits (world engine.old).last port.old }
    requires runs { Runs P.Port runner.now.room (F.pre runner.now.run) (F.post runner.now.run) }
    ensures is { Answers P.Port
        (spec.stride (runner_for do_bodies runner.now.room) at numbers.now.step.now
        (world engine.old) (λ by w.
        spec.over_numbers (runner_for do_bodies runner.now.room) at
        numbers.now.label numbers.now.variable numbers.now.body.now
        (spec.numbers numbers.now.is_reverse first last by) w)) result
        engine.old engine.new port.old port.new }
    ensures keeps { OnOk result (kept engine.new ≡ kept engine.old) }
{
    let Some(step) = numbers.step else {
        return stepping(runner, engine, port, at, numbers, first, last, 1);
    };
    let answer = ask(runner, engine, port, at, Ask::Bound(step.get()))?;
    match number_of(answer) {
        Ok(by) => stepping(runner, engine, port, at, numbers, first, last, by),
        Err(end) => Ok(end),
    }
}

// From the first bound on.
fn from<P: Port, F>(
    runner: &Runner<F>,
    engine: &mut Engine,
    port: &mut P,
    at: Spot,
    numbers: &Numbers<'_>,
    first: i32,
) -> Result<Outcome, Stop>
where
    F: Fn(u64, &mut Engine, &mut P, Task<'_>) -> Result<Outcome, Stop>,
    requires room { (world engine.old).steps ≤ runner.now.room }
    requires fits { P.fits (world engine.old).last port.old }
    requires runs { Runs P.Port runner.now.room (F.pre runner.now.run) (F.post runner.now.run) }
    ensures is { Answers P.Port
        (spec.bound (runner_for do_bodies runner.now.room) at numbers.now.last.now
        (world engine.old) (λ last w. spec.stride (runner_for do_bodies runner.now.room) at
        numbers.now.step.now w (λ by w. spec.over_numbers (runner_for do_bodies runner.now.room) at
        numbers.now.label numbers.now.variable numbers.now.body.now
        (spec.numbers numbers.now.is_reverse first last by) w))) result
        engine.old engine.new port.old port.new }
    ensures keeps { OnOk result (kept engine.new ≡ kept engine.old) }
{
    let answer = ask(runner, engine, port, at, Ask::Bound(numbers.last))?;
    match number_of(answer) {
        Ok(last) => between(runner, engine, port, at, numbers, first, last),
        Err(end) => Ok(end),
    }
}

/// FOR over numbers
pub fn for_numbers<P: Port, F>(
    runner: &Runner<F>,
    engine: &mut Engine,
    port: &mut P,
    at: Spot,
    numbers: &Numbers<'_>,
) -> Result<Outcome, Stop>
where
    F: Fn(u64, &mut Engine, &mut P, Task<'_>) -> Result<Outcome, Stop>,
    requires room { (world engine.old).steps ≤ runner.now.room }
    requires fits { P.fits (world engine.old).last port.old }
    requires runs { Runs P.Port runner.now.room (F.pre runner.now.run) (F.post runner.now.run) }
    ensures is { Answers P.Port
        (spec.for_numbers (runner_for do_bodies runner.now.room) at numbers.now.label
        numbers.now.variable numbers.now.is_reverse numbers.now.first.now numbers.now.last.now
        numbers.now.step.now numbers.now.body.now (world engine.old)) result
        engine.old engine.new port.old port.new }
    ensures keeps { OnOk result (kept engine.new ≡ kept engine.old) }
{
    let answer = ask(runner, engine, port, at, Ask::Bound(numbers.first))?;
    match number_of(answer) {
        Ok(first) => from(runner, engine, port, at, numbers, first),
        Err(end) => Ok(end),
    }
}
