//! The declarations of blocks, and how blocks end: PostgreSQL manual, "PL/pgSQL", "Structure of
//! PL/pgSQL".

ghost use Rattle.std.specs.Prelude.{◌≡◌, ◌≤◌, OnOk};
ghost use Rattle.pl_engine.specs.Answers.{Answers};
ghost use Rattle.pl_engine.specs.Engines.{kept, world};
ghost use Rattle.pl_engine.specs.Runs.{Runs};
ghost use Rattle.pl_engine.specs.Texts.{do_bodies};
ghost use Rattle.pl_engine.specs.pl_world.Blocks as spec;
ghost use Rattle.pl_engine.specs.pl_world.Statements.{runner_for};
ghost use Rattle.pl_engine.specs.pl_world.declared.outcome.Outcome.TheVariants as outcome;

use pl_base::Name;
use pl_bodies::Declaration;
use pl_engine::pl_world::Outcome;
use pl_engine::{Ask, Engine, Port, Runner, Spot, Stop, Task, ask};

// EXIT names the block.
fn is_named(label: &Option<Name>, to: &Option<Name>) -> bool
    ensures { result ≡ spec.is_named label.now to.now }
{
    match (label, to) {
        (Some(label), Some(to)) => label == to,
        _ => false,
    }
}

fn exit_end(label: &Option<Name>, to: Option<Name>) -> Outcome
    ensures { result ≡ spec.block_end label.now (outcome.Exit to) }
{
    if is_named(label, &to) {
        return Outcome::Next;
    }
    Outcome::Exit(to)
}

/// How a block ends whose statements ended so.
pub fn block_end(label: &Option<Name>, end: Outcome) -> Outcome
    ensures { result ≡ spec.block_end label.now end }
{
    match end {
        Outcome::Exit(to) => exit_end(label, to),
        other => other,
    }
}

/// The declarations of a block, up to the first that fails.
pub fn declare<P: Port, F>(
    runner: &Runner<F>,
    engine: &mut Engine,
    port: &mut P,
    at: Spot,
    declarations: &[Declaration],
) -> Result<Outcome, Stop>
where
    F: Fn(u64, &mut Engine, &mut P, Task<'_>) -> Result<Outcome, Stop>,
    requires room { (world engine.old).steps ≤ runner.now.room }
    requires fits { P.fits (world engine.old).last port.old }
    requires runs { Runs P.Port runner.now.room (F.pre runner.now.run) (F.post runner.now.run) }
    ensures is { Answers P.Port
        (spec.all_declared (runner_for do_bodies runner.now.room) at declarations.now
        (world engine.old)) result
        engine.old engine.new port.old port.new }
    ensures keeps { OnOk result (kept engine.new ≡ kept engine.old) }
{
    for declaration in declarations {
        match ask(runner, engine, port, at, Ask::Declare(declaration))? {
            Outcome::Next => {}
            other => return Ok(other),
        }
    }
    Ok(Outcome::Next)
}
