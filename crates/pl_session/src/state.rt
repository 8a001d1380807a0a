//! A session: the engine that does its commands, where it stands between two of them, and the keeper
//! of the store that holds what they committed.

ghost use Rattle.std.specs.Prelude.{true, false, ◌≡◌, ◌&&◌, Some, Err, IfOk, IfErr, OnOk, IsErrOf};
ghost use Rattle.pl_disk.specs.Disk.{Runs, Settled, Untouched, Writes};
ghost use Rattle.pl_port.specs.pl_engine.declared.stop.Stop.{Stop};
ghost use Rattle.pl_keeper.specs.Batches.{Damage, spare_area};
ghost use Rattle.pl_keeper.specs.Checkpoint.{is_due};
ghost use Rattle.pl_reading.specs.Computed.{CommandMeansAlike, MeansAlike};
ghost use Rattle.pl_reading.specs.declared.reading.Reading.TheVariants as reading;
ghost use Rattle.pl_exec.specs.pl_world.Opening.{opens};
ghost use Rattle.pl_exec.specs.pl_world.Trace.{is_failed};
ghost use Rattle.pl_session.specs.Endings.{OfTrace, RunsAlong, GoesOn, StopsBy, HasCause, outcome_of, ended_of};
ghost use Rattle.pl_session.specs.Short.{StaysShort};
ghost use Rattle.pl_session.specs.Spare.{KeepsArea};
ghost use Rattle.pl_session.specs.Starts.{StartPair, OpensSame, IsStarted, HasStartCause};
ghost use Rattle.pl_session.specs.State.{database_in, session_in, IsReady};
ghost use Rattle.pl_session.specs.Steps.{KeepCause, OpensTo, PieceEnd, StepEnd};
ghost use Rattle.pl_session.specs.Traces.{LeadsTo, events_in};
ghost use Rattle.pl_session.specs.declared.halt.Halt.TheVariants.{Closed};
ghost use Rattle.pl_exec.specs.pl_world.declared.session.Mode.TheVariants as mode;

use crate::answering::{do_command, say_reply};
use crate::halt::{Ended, Halt, Outcome, StartFail, Stop};
use crate::keeping::keep_short;
use crate::opening::fold;
use crate::script::read_next;
use pl_base::State;
use pl_disk::Host;
use pl_keeper::Keeper;
use pl_port::pl_engine::Engine;
use pl_reading::Reading;
use pl_transactions::{Transaction, refuse};
use pl_tree::Command;
use std::alloc::Global;

/// What a session knows besides its host. Every call takes the same host.
#[derive(Drop)]
pub struct SessionState {
    alloc: Global,
    engine: Engine,
    transaction: Transaction,
    keeper: Keeper,
    failed: Option<Stop>,
}

// Whether a script ends at a command.
fn ends_at(stops: bool, failed: bool) -> bool
    ensures { result ≡ (stops && failed) }
{
    stops && failed
}

impl SessionState {
    /// Opens the store of an attached host, or makes a new one where both areas are closed.
    ///
    /// `Disk` comes where a call of the disk failed. `Damaged` comes where the files are malformed,
    /// with the first such place; then they stay as they are.
    pub fn start<H: Host>(alloc: Global, host: &mut H) -> Result<SessionState, StartFail>
        requires { (H.view host.old).is_attached }

        // Nothing is printed, and each image is one from before or opens as what reads give.
        ensures moments { Runs (H.view host.old) (H.view host.new) (StartPair (H.view host.old)) }

        // From the first sync on, if it succeeds, each image opens as what reads give.
        ensures settled { (H.view host.old).told
            → Settled (H.view host.old) (H.view host.new) (OpensSame (H.view host.old)) }
        ensures printed { (H.view host.old).told
            → (H.view host.new).printed ≡ (H.view host.old).printed }
        ensures say_faults { (H.view host.new).say_faults ≡ (H.view host.old).say_faults }

        // After Ok the session is ready; each error has its cause.
        ensures started { IfOk result (IsStarted (H.view host.old) (H.view host.new)) }
        ensures cause { IfErr result (HasStartCause (H.view host.old) (H.view host.new)) }

        // A store that does not open stays as it is, however the call ends. The area that doesn't
        // count always does.
        ensures untouched { (H.view host.old).told → (damage : Damage)
            → opens (H.view host.old).seen ≡ Err damage
            → Untouched (H.view host.old) (H.view host.new) }
        ensures spare { (H.view host.old).told → KeepsArea (spare_area (H.view host.old).seen)
            (H.view host.old) (H.view host.new) }
    {
        let reader = Keeper::recover(alloc, host)?;
        let (journal, keeper) = fold(alloc, host, reader)?;
        Ok(SessionState {
            alloc,
            engine: Engine::new(alloc, journal),
            transaction: Transaction::new(alloc),
            keeper,
            failed: None,
        })
    }

    /// Why the session stopped, if it did.
    pub fn failed(&self) -> Option<Stop>
        ensures { result ≡ self.now.failed }
    {
        self.failed
    }

    // Answers a piece that is no command, with this SQLSTATE. The answer is that it was an error.
    fn refuse_piece<H: Host>(
        &mut self,
        host: &mut H,
        state: State,
        steps: u64,
    ) -> Result<bool, Stop>
        requires ready { IsReady (H.view host.old) self.old }
        ensures moments { RunsAlong (H.view host.old) (H.view host.new)
            (events_in steps (reading.Refused state) (session_in self.old))
            (database_in self.old) }
        ensures ended { StepEnd (H.view host.old) (H.view host.new) self.old self.new
            steps (reading.Refused state) result }
    {
        let answer = refuse(&mut self.transaction, &self.engine, state)?;
        say_reply(host, answer)
    }

    // Does a command, and prints its reply. The answer is whether it was an error.
    fn answer<H: Host>(&mut self, host: &mut H, tree: Command, steps: u64) -> Result<bool, Stop>
        requires ready { IsReady (H.view host.old) self.old }
        requires alike { CommandMeansAlike tree }
        ensures moments { RunsAlong (H.view host.old) (H.view host.new)
            (events_in steps (reading.Spelled tree) (session_in self.old)) (database_in self.old) }
        ensures ended { StepEnd (H.view host.old) (H.view host.new) self.old self.new
            steps (reading.Spelled tree) result }
    {
        let answer = do_command(
            &mut self.transaction,
            &mut self.engine,
            &mut self.keeper,
            host,
            steps,
            tree,
        )?;
        say_reply(host, answer)
    }

    // Runs what a piece of a script is read as, in so many steps at the most. The answer is whether
    // it was an error.
    fn run_reading<H: Host>(
        &mut self,
        host: &mut H,
        reading: Reading,
        steps: u64,
    ) -> Result<bool, Stop>
        requires ready { IsReady (H.view host.old) self.old }
        requires alike { MeansAlike reading }
        ensures moments { RunsAlong (H.view host.old) (H.view host.new)
            (events_in steps reading (session_in self.old)) (database_in self.old) }
        ensures ended { StepEnd (H.view host.old) (H.view host.new) self.old self.new
            steps reading result }
    {
        match reading {
            Reading::Nothing => Ok(false),
            Reading::Refused(state) => self.refuse_piece(host, state, steps),
            Reading::Spelled(tree) => self.answer(host, tree, steps),
        }
    }

    // Writes the database anew where that is due and the session is in no block: in one the engine
    // has changes that aren't committed.
    fn shorten<H: Host>(&mut self, host: &mut H) -> Result<(), Stop>
        requires ready { IsReady (H.view host.old) self.old }
        ensures writes { Writes (H.view host.old) (H.view host.new)
            (OpensTo (database_in self.old)) }
        ensures ready { OnOk result (IsReady (H.view host.new) self.new) }
        ensures session { OnOk result (session_in self.new ≡ session_in self.old) }
        ensures short { OnOk result ((session_in self.new).mode ≡ mode.Idle
            → is_due self.new.keeper ≡ false) }
        ensures cause { IfErr result (KeepCause (H.view host.old) (H.view host.new)) }
    {
        if !self.transaction.is_idle() {
            return Ok(());
        }
        keep_short(&mut self.keeper, self.alloc, host, self.engine.journal())
    }

    // Runs what a piece of a script is read as, and writes the database anew once its reply was
    // said, where that is due. The answer is whether it was an error.
    fn run_piece<H: Host>(
        &mut self,
        host: &mut H,
        reading: Reading,
        steps: u64,
    ) -> Result<bool, Stop>
        requires ready { IsReady (H.view host.old) self.old }
        requires alike { MeansAlike reading }
        ensures moments { RunsAlong (H.view host.old) (H.view host.new)
            (events_in steps reading (session_in self.old)) (database_in self.old) }
        ensures ended { PieceEnd (H.view host.old) (H.view host.new) self.old self.new
            steps reading result }
        ensures short { OnOk result ((session_in self.new).mode ≡ mode.Idle
            → is_due self.new.keeper ≡ false) }
    {
        let failed = self.run_reading(host, reading, steps)?;
        self.shorten(host)?;
        Ok(failed)
    }

    // Runs the pieces of a script in order, up to the first error where it stops on errors.
    fn run_pieces<H: Host>(
        &mut self,
        host: &mut H,
        script: &str,
        steps: u64,
        stops: bool,
    ) -> Result<Ended, Stop>
        requires ready { IsReady (H.view host.old) self.old }
        ensures moments { OfTrace script.now steps stops (session_in self.old)
            (λ events. RunsAlong (H.view host.old) (H.view host.new) events
            (database_in self.old)) }
        ensures done { OfTrace script.now steps stops (session_in self.old)
            (λ events. OnOk result
            (GoesOn (H.view host.old) (H.view host.new) self.old self.new events)) }
        ensures ended { OfTrace script.now steps stops (session_in self.old)
            (λ events. IfOk result (λ ended. ended ≡ ended_of (stops && is_failed events))) }
        ensures ready { OnOk result (IsReady (H.view host.new) self.new) }
        ensures session { OnOk result
            (LeadsTo script.now steps stops (session_in self.old) (session_in self.new)) }
        ensures short { OnOk result
            (StaysShort (session_in self.new).mode self.new.keeper host.old host.new) }
        ensures cause { IfErr result (StopsBy (H.view host.old) (H.view host.new)
            script.now steps stops (session_in self.old)) }
    {
        let mut at = 0;
        'pieces: loop {
            let Some(next) = read_next(self.alloc, script, at)? else {
                return Ok(Ended::Whole);
            };
            let failed = self.run_piece(host, next.reading, steps)?;
            if ends_at(stops, failed) {
                return Ok(Ended::AtError);
            }
            at = next.after;
        }
    }

    /// Runs one command, in so many steps at the most, and prints its answer once it is committed.
    /// A text of several commands is run up to its first error, and each of them may take so many
    /// steps.
    ///
    /// After each command's reply the whole database is written anew into the other area, where
    /// that is due and the session is in no block, and this may fail too.
    ///
    /// `Closed` comes where the session had stopped before; then nothing is done. `Stopped` comes
    /// where a call of the host failed or there was no memory; the session is closed from then on.
    pub fn run_command<H: Host>(
        &mut self,
        host: &mut H,
        text: &str,
        steps: u64,
    ) -> Result<Outcome, Halt>
        requires ready { self.old.failed ≡ None → IsReady (H.view host.old) self.old }

        // At every moment what was printed and what a crash leaves go along the command's events.
        ensures moments { OfTrace text.now steps true (session_in self.old)
            (λ events. RunsAlong (H.view host.old) (H.view host.new) events
            (database_in self.old)) }

        // After Ok they are done, the session is ready for the next command, and is the one to
        // which this command leads. The answer says whether one failed.
        ensures done { OfTrace text.now steps true (session_in self.old)
            (λ events. OnOk result
            (GoesOn (H.view host.old) (H.view host.new) self.old self.new events)) }
        ensures ready_again { OnOk result (IsReady (H.view host.new) self.new) }
        ensures session { OnOk result
            (LeadsTo text.now steps true (session_in self.old) (session_in self.new)) }

        // No checkpoint is due then, unless the session is in a block; or nothing was done, since
        // there was no command.
        ensures short { OnOk result
            (StaysShort (session_in self.new).mode self.new.keeper host.old host.new) }
        ensures outcome { OfTrace text.now steps true (session_in self.old)
            (λ events. IfOk result (λ outcome. outcome ≡ outcome_of (is_failed events))) }

        // Each other answer has its cause, and one comes from a session that had stopped.
        ensures cause { IfErr result
            (HasCause H.view host.old host.new self.old self.new text.now steps true) }
        ensures closed { (why : Stop) → self.old.failed ≡ Some why → IsErrOf result (Closed why) }
    {
        match self.run_script(host, text, steps, true) {
            Ok(Ended::Whole) => Ok(Outcome::Fine),
            Ok(Ended::AtError) => Ok(Outcome::Errored),
            Err(halt) => Err(halt),
        }
    }

    /// Runs the commands of a script in order, each in so many steps at the most. Where it stops on
    /// errors, the first command that gets one is the last that runs, and the answer is `AtError`.
    /// A script may end in a transaction block, in which the next one of this session goes on.
    ///
    /// `Closed` and `Stopped` come as for `run_command`.
    pub fn run_script<H: Host>(
        &mut self,
        host: &mut H,
        script: &str,
        steps: u64,
        stops_on_error: bool,
    ) -> Result<Ended, Halt>
        requires ready { self.old.failed ≡ None → IsReady (H.view host.old) self.old }

        // At every moment what was printed and what a crash leaves go along the script's events.
        ensures moments { OfTrace script.now steps stops_on_error (session_in self.old)
            (λ events. RunsAlong (H.view host.old) (H.view host.new) events
            (database_in self.old)) }

        // After Ok they are done, and the session is ready for the next script, and is the one to
        // which this script leads. It ends at an error exactly where it stops on errors and one
        // failed.
        ensures done { OfTrace script.now steps stops_on_error (session_in self.old)
            (λ events. OnOk result
            (GoesOn (H.view host.old) (H.view host.new) self.old self.new events)) }
        ensures ready_again { OnOk result (IsReady (H.view host.new) self.new) }
        ensures session { OnOk result
            (LeadsTo script.now steps stops_on_error (session_in self.old) (session_in self.new)) }

        // No checkpoint is due then, unless the session is in a block; or nothing was done, since
        // there was no command.
        ensures short { OnOk result
            (StaysShort (session_in self.new).mode self.new.keeper host.old host.new) }
        ensures ended { OfTrace script.now steps stops_on_error (session_in self.old)
            (λ events. IfOk result
            (λ ended. ended ≡ ended_of (stops_on_error && is_failed events))) }

        // Each other answer has its cause, and one comes from a session that had stopped.
        ensures cause { IfErr result
            (HasCause H.view host.old host.new self.old self.new
            script.now steps stops_on_error) }
        ensures closed { (why : Stop) → self.old.failed ≡ Some why → IsErrOf result (Closed why) }
    {
        if let Some(why) = self.failed {
            return Err(Halt::Closed(why));
        }
        match self.run_pieces(host, script, steps, stops_on_error) {
            Ok(ended) => Ok(ended),
            Err(stop) => {
                self.failed = Some(stop);
                Err(Halt::Stopped(stop))
            }
        }
    }
}
