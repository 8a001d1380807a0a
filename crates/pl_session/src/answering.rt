//! A command over a store, and its answer.

ghost use Rattle.std.specs.Prelude.{◌≡◌, ◌≤◌, ◌++◌, IfOk, IfErr, OnOk};
ghost use Rattle.pl_disk.specs.Disk.{Keeps};
ghost use Rattle.pl_port.specs.pl_engine.Answers.{Answers};
ghost use Rattle.pl_port.specs.pl_engine.Engines.{kept, world};
ghost use Rattle.pl_port.specs.pl_engine.Runs.{run_as};
ghost use Rattle.pl_port.specs.pl_engine.Texts.{do_bodies};
ghost use Rattle.pl_exec.specs.pl_world.Trace.{is_failed};
ghost use Rattle.pl_port.specs.Ports.{Fits};
ghost use Rattle.pl_port.specs.Stores.{AllOpen};
ghost use Rattle.pl_reading.specs.Computed.{CommandMeansAlike};
ghost use Rattle.pl_session.specs.Endings.{RunsAlong};
ghost use Rattle.pl_session.specs.Steps.{DoneBefore, SayCause, StepCause, replies};
ghost use Rattle.pl_transactions.specs.Before.{told};
ghost use Rattle.pl_transactions.specs.Ends.{as_ran};
ghost use Rattle.pl_transactions.specs.Lines.{lines_of};
ghost use Rattle.pl_transactions.specs.State.{Stands, session_at};
ghost use Rattle.pl_undo.specs.Database.{Database};
ghost use Rattle.pl_exec.specs.pl_world.Laws.{events};
ghost use Rattle.pl_exec.specs.pl_world.Scripts.{outward};
ghost use Rattle.pl_exec.specs.pl_world.Sessions.{does_command};

use crate::halt::Stop;
use pl_disk::Host;
use pl_exec::pl_world::Outcome;
use pl_exec::{Bodies, run};
use pl_keeper::Keeper;
use pl_port::StorePort;
use pl_port::pl_engine::{Engine, Port, Runner, Task};
use pl_transactions::{Answer, Transaction, command};
use pl_tree::Command;

// A task of a body, over any port. It stands here since a function of another crate isn't passed on
// by its name.
fn run_task<P: Port>(
    room: u64,
    engine: &mut Engine,
    port: &mut P,
    t: Task<'_>,
) -> Result<Outcome, Stop>
    requires room { (world engine.old).steps ≤ room }
    requires fits { P.fits (world engine.old).last port.old }
    ensures is { Answers P.Port (run_as do_bodies room t.entry (world engine.old)) result
        engine.old engine.new port.old port.new }
    ensures keeps { OnOk result (kept engine.new ≡ kept engine.old) }
{
    run(room, engine, port, t)
}

// Does a command over the port, in so many steps at the most.
fn do_over<H: Host>(
    transaction: &mut Transaction,
    engine: &mut Engine,
    port: &mut StorePort<'_, H>,
    steps: u64,
    tree: Command,
) -> Result<Answer, Stop>
    requires stands { Stands transaction.old engine.old }
    requires alike { CommandMeansAlike tree }
    requires fits { Fits (H.view port.old.host.now) port.old.keeper.now (world engine.old).last }
    ensures same_host { port.new.host.ghost_name ≡ port.old.host.ghost_name }
    ensures same_keeper { port.new.keeper.ghost_name ≡ port.old.keeper.ghost_name }
    ensures done { IfOk result (λ answer. DoneBefore
        (does_command do_bodies steps tree (session_at transaction.old engine.old)) answer.reply
        transaction.new engine.old engine.new (H.view port.old.host.now)
        (H.view port.new.host.now) port.old.keeper.now port.new.keeper.now) }
    ensures moments { RunsAlong (H.view port.old.host.now) (H.view port.new.host.now)
        (outward (events (as_ran
        (does_command do_bodies steps tree (session_at transaction.old engine.old)))))
        (world engine.old).last }
    ensures cause { IfErr result (StepCause (H.view port.old.host.now) (H.view port.new.host.now)
        (outward (told do_bodies steps tree (session_at transaction.old engine.old)))
        (world engine.old).last) }
    ensures lines { IfOk result (λ answer. answer.lines ≡ lines_of answer.reply) }
{
    let runner = Runner {
        room: steps,
        run: run_task,
    };
    command(&runner, &Bodies, transaction, engine, port, tree)
}

/// Does a command over the store, in so many steps at the most, and commits what it is to commit.
/// What it prints before its reply goes to the host.
pub fn do_command<H: Host>(
    transaction: &mut Transaction,
    engine: &mut Engine,
    keeper: &mut Keeper,
    host: &mut H,
    steps: u64,
    tree: Command,
) -> Result<Answer, Stop>
    requires stands { Stands transaction.old engine.old }
    requires alike { CommandMeansAlike tree }
    requires fits { Fits (H.view host.old) keeper.old (world engine.old).last }
    ensures done { IfOk result (λ answer. DoneBefore
        (does_command do_bodies steps tree (session_at transaction.old engine.old)) answer.reply
        transaction.new engine.old engine.new (H.view host.old) (H.view host.new)
        keeper.old keeper.new) }
    ensures moments { RunsAlong (H.view host.old) (H.view host.new)
        (outward (events (as_ran
        (does_command do_bodies steps tree (session_at transaction.old engine.old)))))
        (world engine.old).last }
    ensures cause { IfErr result (StepCause (H.view host.old) (H.view host.new)
        (outward (told do_bodies steps tree (session_at transaction.old engine.old)))
        (world engine.old).last) }
    ensures lines { IfOk result (λ answer. answer.lines ≡ lines_of answer.reply) }
{
    let mut port = StorePort::new(engine.alloc(), keeper, host);
    do_over(transaction, engine, &mut port, steps, tree)
}

/// Prints a reply. The answer is whether it was an error.
pub fn say_reply<H: Host>(host: &mut H, answer: Answer) -> Result<bool, Stop>
    requires lines { answer.lines ≡ lines_of answer.reply }
    ensures moments { (db : Database) → AllOpen (H.view host.old) db
        → RunsAlong (H.view host.old) (H.view host.new) (replies answer.reply) db }
    ensures images { (H.view host.old).told → Keeps (H.view host.old) (H.view host.new) }
    ensures printed { (H.view host.old).told → OnOk result
        ((H.view host.new).printed ≡ (H.view host.old).printed ++ lines_of answer.reply) }
    ensures failed { IfOk result (λ failed. failed ≡ is_failed (replies answer.reply)) }
    ensures cause { IfErr result (SayCause (H.view host.old) (H.view host.new)) }
{
    let Answer { reply, lines } = answer;
    match host.say(lines.as_slice()) {
        Ok(()) => Ok(reply.fail.is_some()),
        Err(_) => Err(Stop::Say),
    }
}
