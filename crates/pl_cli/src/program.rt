//! The program: words, store, script, commands.

ghost use Rattle.std.specs.Prelude.{◌≡◌, ◌⊎◌, ◌++◌, List, ℕ, map, [], Some, None, Ok, Err, IfOk, IfErr, string_bytes};
ghost use Rattle.pl_disk.specs.Disk.{Continues, Runs, Settled, Untouched, with_attached};
ghost use Rattle.pl_base.specs.Image.{Image};
ghost use Rattle.pl_keeper.specs.Batches.{Damage, batches, spare_area};
ghost use Rattle.pl_undo.specs.Database.{Database};
ghost use Rattle.pl_session.specs.pl_world.Opening.{opens};
ghost use Rattle.pl_session.specs.pl_world.Trace.{Event};
ghost use Rattle.pl_session.specs.Endings.{Done, OfTrace, PrintsWhole, RunsAlong};
ghost use Rattle.pl_session.specs.Short.{IsShort};
ghost use Rattle.pl_session.specs.Spare.{KeepsArea};
ghost use Rattle.pl_session.specs.Starts.{HasStartCause, IsStarted, OpensSame, StartPair};
ghost use Rattle.pl_session.specs.State.{IsReady, database_in, session_in};
ghost use Rattle.pl_session.specs.Traces.{LeadsTo};
ghost use Rattle.pl_session.specs.pl_world.Sessions.{new_session};
ghost use Rattle.pl_session.specs.pl_world.declared.session.Mode.TheVariants as mode;
ghost use Rattle.pl_cli.specs.Covers.{CoveredRun};
ghost use Rattle.pl_cli.specs.Endings.{status_of};
ghost use Rattle.pl_cli.specs.Line.{asked};
ghost use Rattle.pl_cli.specs.Parts.{SaysLast, ScriptEnd};
ghost use Rattle.pl_cli.specs.Printed.{damage_line, refusal_line, usage_line};
ghost use Rattle.pl_cli.specs.Runs.{AttachesScript, AttachesStore, EndsIdle, HasCause, IsBetween, IsLine, OnlySays, Over};
ghost use Rattle.pl_cli.specs.Script.{script_text};
ghost use Rattle.pl_cli.specs.declared.ending.Ending.TheVariants as end;

use crate::ending::Ending;
use crate::line::{WordsFail, read_words};
use crate::reading::{ReadFail, read_script, without_mark};
use pl_disk::{Area, Host, Source};
use pl_session::{Ended, Halt, SessionState, StartFail, Stop};
use std::alloc::{AllocError, Global};

/// How the program ended.
#[derive(Drop)]
pub struct Finish {
    pub ending: Ending,
    /// The number of this ending, which the system is told.
    pub status: u8,
}

impl Finish {
    fn of(ending: Ending) -> Finish
        ensures ending { result.ending ≡ ending }
        ensures status { result.status ≡ status_of ending }
    {
        Finish {
            ending,
            status: ending.status(),
        }
    }
}

const USAGE: &[u8] = b"usage: plpg STORE SCRIPT [--steps N] [--on-error-stop]\n";

// Says the last line of a run that ends so.
fn say_last<H: Host>(host: &mut H, line: &[u8], ending: Ending) -> Ending
    ensures says { SaysLast line.now ending (H.view host.old) (H.view host.new) result }
{
    match host.say(line) {
        Ok(()) => ending,
        Err(_) => Ending::Say,
    }
}

fn damage_line(alloc: Global, area: Area, at: u64) -> Result<String, AllocError>
    ensures { IfOk result (λ line. string_bytes line ≡ damage_line area at) }
{
    match area {
        Area::A => format!(in alloc; "plpg: store damaged in area A at byte {at}\n"),
        Area::B => format!(in alloc; "plpg: store damaged in area B at byte {at}\n"),
    }
}

// Says where a store is damaged. For want of memory nothing is done.
fn say_damage<H: Host>(alloc: Global, host: &mut H, area: Area, at: u64) -> Ending
    ensures { SaysLast (damage_line area at) end.Damaged (H.view host.old) (H.view host.new) result
        ⊎ ((result ≡ end.Memory) × (host.new ≡ host.old)) }
{
    match damage_line(alloc, area, at) {
        Ok(line) => say_last(host, line.as_bytes(), Ending::Damaged),
        Err(_) => Ending::Memory,
    }
}

fn refusal_line(alloc: Global, at: u64) -> Result<String, AllocError>
    ensures { IfOk result (λ line. string_bytes line ≡ refusal_line at) }
{
    format!(in alloc; "plpg: script refused at byte {at}\n")
}

// Says where a script is refused. For want of memory nothing is done.
fn say_refusal<H: Host>(alloc: Global, host: &mut H, at: u64) -> Ending
    ensures { SaysLast (refusal_line at) end.Refused (H.view host.old) (H.view host.new) result
        ⊎ ((result ≡ end.Memory) × (host.new ≡ host.old)) }
{
    match refusal_line(alloc, at) {
        Ok(line) => say_last(host, line.as_bytes(), Ending::Refused),
        Err(_) => Ending::Memory,
    }
}

// Attaches the host and opens its store.
fn start<H: Host>(alloc: Global, host: &mut H, store: &str) -> Result<SessionState, StartFail>
    ensures moments { Runs (with_attached store.now (H.view host.old)) (H.view host.new)
        (StartPair (H.view host.old)) }
    ensures settled { (H.view host.old).told
        → Settled (H.view host.old) (H.view host.new) (OpensSame (H.view host.old)) }
    ensures printed { (H.view host.old).told
        → (H.view host.new).printed ≡ (H.view host.old).printed }
    ensures started { IfOk result (IsStarted (H.view host.old) (H.view host.new)) }
    ensures cause { IfErr result (HasStartCause (H.view host.old) (H.view host.new)) }
    ensures untouched { (H.view host.old).told → (damage : Damage)
        → opens (H.view host.old).seen ≡ Err damage
        → Untouched (H.view host.old) (H.view host.new) }
    ensures spare { (H.view host.old).told → KeepsArea (spare_area (H.view host.old).seen)
        (H.view host.old) (H.view host.new) }
{
    if host.attach(store).is_err() {
        return Err(StartFail::Disk);
    }
    SessionState::start(alloc, host)
}

// Runs the script over an open store, each command in so many steps at the most.
fn run_commands<H: Host>(
    state: &mut SessionState,
    host: &mut H,
    script: &str,
    steps: u64,
    stops: bool,
) -> Ending
    requires ready { IsReady (H.view host.old) state.old }
    ensures continues { Continues (H.view host.old) (H.view host.new) }
    ensures moments { OfTrace script.now steps stops (session_in state.old)
        (λ events. RunsAlong (H.view host.old) (H.view host.new) events (database_in state.old)) }
    ensures ended { ScriptEnd result (H.view host.old) (H.view host.new) script.now steps stops
        (session_in state.old) }
    ensures session { (result ≡ end.Whole) ⊎ (result ≡ end.AtError)
        → LeadsTo script.now steps stops (session_in state.old) (session_in state.new) }
    ensures short { (result ≡ end.Whole) ⊎ (result ≡ end.AtError)
        → (session_in state.new).mode ≡ mode.Idle → (H.view host.old).told
        → (image : Image) → (H.view host.new).may_leave image
        → IsShort image ⊎ (host.new ≡ host.old) }
{
    match state.run_script(host, script, steps, stops) {
        Ok(Ended::Whole) => Ending::Whole,
        Ok(Ended::AtError) => Ending::AtError,
        Err(Halt::Stopped(Stop::Disk)) => Ending::Disk,
        Err(Halt::Stopped(Stop::Say)) => Ending::Say,
        Err(Halt::Stopped(Stop::Memory)) => Ending::Memory,
        Err(Halt::Closed(_)) => unreachable!(),
    }
}

/// Answers words that are no valid line: says the usage line. The ending is `Usage`, or `Say` where
/// that failed.
pub fn refuse_words<H: Host>(host: &mut H) -> Finish
    ensures status { result.status ≡ status_of result.ending }
    ensures says { SaysLast usage_line end.Usage (H.view host.old) (H.view host.new) result.ending }
{
    Finish::of(say_last(host, USAGE, Ending::Usage))
}

/// Runs a script over a store, both named by the words of a command line.
pub fn run<H: Host, S: Source>(
    alloc: Global,
    words: &[String],
    host: &mut H,
    source: &mut S,
) -> Finish
    // Each status is that of an ending, which has its cause.
    ensures status { result.status ≡ status_of result.ending }
    ensures cause { HasCause result.ending (map string_bytes words.now)
        (H.view host.old) (H.view host.new)
        (S.left source.old) (S.faults source.old) (S.faults source.new) }

    // At every moment, what was printed and what a crash then leaves are covered by the events due.
    ensures covered { (db : Database) (events : List Event)
        → Over (map string_bytes words.now) (H.view host.old) (S.left source.old) db events
        → CoveredRun (H.view host.old) (H.view host.new) events db }

    // 0, 3, 8: the events due are done. At 0 and 3 the script was read to its end.
    ensures done { (result.ending ≡ end.Whole)
        ⊎ ((result.ending ≡ end.AtError) ⊎ (result.ending ≡ end.Refused))
        → (db : Database) (events : List Event)
        → Over (map string_bytes words.now) (H.view host.old) (S.left source.old) db events
        → Done (H.view host.old) (H.view host.new) events db }
    ensures read { (result.ending ≡ end.Whole) ⊎ (result.ending ≡ end.AtError)
        → (script : List ℕ) → S.left source.old ≡ Some script → S.left source.new ≡ Some [] }

    // 0, 3: unless the script ends in a transaction block, no checkpoint is due; or no frame was
    // written, and the batches are those from before.
    ensures short { (result.ending ≡ end.Whole) ⊎ (result.ending ≡ end.AtError)
        → (db : Database) (events : List Event)
        → (over : Over (map string_bytes words.now) (H.view host.old) (S.left source.old) db events)
        → EndsIdle over → (image : Image) → (H.view host.new).may_leave image
        → IsShort image ⊎ (batches image ≡ batches (H.view host.old).seen) }

    // 2: the usage line is printed. Wrong words leave the store as it is, however the run ends.
    ensures usage { result.ending ≡ end.Usage → (H.view host.old).told
        → (H.view host.new).printed ≡ (H.view host.old).printed ++ usage_line }
    ensures words { asked (map string_bytes words.now) ≡ None → (H.view host.old).told
        → OnlySays usage_line (H.view host.old) (H.view host.new) }

    // 4: no reply is printed in part.
    ensures disk { result.ending ≡ end.Disk → (db : Database) (events : List Event)
        → (over : Over (map string_bytes words.now) (H.view host.old) (S.left source.old) db events)
        → PrintsWhole (H.view host.old) (H.view host.new) (script_text over.script)
        over.line.steps over.line.stops_on_error (new_session db) }

    // 5: no command was run.
    ensures source { result.ending ≡ end.Source → (db : Database) → (H.view host.old).told
        → opens (H.view host.old).seen ≡ Ok db → Done (H.view host.old) (H.view host.new) [] db }

    // 7: the line of the first malformed place is printed. A damaged store stays as it is, however
    // the run ends.
    ensures damaged { result.ending ≡ end.Damaged → (H.view host.old).told
        → (damage : Damage) → opens (H.view host.old).seen ≡ Err damage
        → (H.view host.new).printed ≡ (H.view host.old).printed
        ++ damage_line damage.area damage.at }
    ensures damaged_store { IsLine (map string_bytes words.now) → (H.view host.old).told
        → (damage : Damage) → opens (H.view host.old).seen ≡ Err damage
        → OnlySays (damage_line damage.area damage.at) (H.view host.old) (H.view host.new) }

    // 9: it stopped between two commands, or within one before its end.
    ensures memory { result.ending ≡ end.Memory → (db : Database) (events : List Event)
        → (over : Over (map string_bytes words.now) (H.view host.old) (S.left source.old) db events)
        → IsBetween over (H.view host.new) }

    // The store and the script that are attached are those that the words name, and no others.
    ensures store { AttachesStore (asked (map string_bytes words.now)) result.ending
        (H.view host.old).attached (H.view host.new).attached }
    ensures script { AttachesScript (asked (map string_bytes words.now)) result.ending
        (S.attached source.old) (S.attached source.new) }

    // 5, 8: the area that doesn't count stays as it is.
    ensures spare { (result.ending ≡ end.Source) ⊎ (result.ending ≡ end.Refused)
        → (H.view host.old).told → KeepsArea (spare_area (H.view host.old).seen)
        (H.view host.old) (H.view host.new) }
{
    let line = match read_words(alloc, words) {
        Ok(line) => line,
        Err(WordsFail::Usage) => return refuse_words(host),
        Err(WordsFail::Memory) => return Finish::of(Ending::Memory),
    };
    let mut state = match start(alloc, host, line.store) {
        Ok(state) => state,
        Err(StartFail::Disk) => return Finish::of(Ending::Disk),
        Err(StartFail::Damaged { area, at }) => {
            return Finish::of(say_damage(alloc, host, area, at));
        }
        Err(StartFail::Memory) => return Finish::of(Ending::Memory),
    };
    let script = match read_script(alloc, source, line.script) {
        Ok(script) => script,
        Err(ReadFail::Fault) => return Finish::of(Ending::Source),
        Err(ReadFail::Refused { at }) => return Finish::of(say_refusal(alloc, host, at)),
        Err(ReadFail::Memory) => return Finish::of(Ending::Memory),
    };
    let text = without_mark(&script);
    Finish::of(run_commands(&mut state, host, text, line.steps, line.stops_on_error))
}
