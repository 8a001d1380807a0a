//! How an evaluation ends: what was held is told, and its error arises.

ghost use Rattle.std.specs.Prelude.{◌≡◌, [], ◌∷◌, ℕ, IfOk, OnOk};
ghost use Rattle.pl_calling.specs.Ends.{EndsAs, Tells, error_of, settles};
ghost use Rattle.pl_calling.specs.Standing.{Standing, keep};
ghost use Rattle.pl_engine.specs.Answers.{Answers};
ghost use Rattle.pl_engine.specs.Engines.{kept, world};
ghost use Rattle.pl_engine.specs.Holding.{said};
ghost use Rattle.pl_engine.specs.declared.engine.Engine as declared;
ghost use Rattle.pl_engine.specs.pl_world.Trace.{Said};
ghost use Rattle.pl_natural.specs.Kept.{ReadsKept};
ghost use Rattle.pl_undo.specs.Database.{Database};
ghost use Rattle.pl_value.specs.Reading.{Reading};
ghost use Rattle.pl_engine.specs.pl_world.Calls.{Within};

use crate::calling::Calling;
use crate::converting::run_state;
use crate::start::Start;
use pl_base::{Fail, Memory, State, Txt};
use pl_engine::{BodyRunner, Engine, Port, PortFail, Spot, Stop};
use pl_value::Unsettled;

// The error of a call goes on as it is; any other arises here.
fn error(engine: &Engine, at: Spot, failure: Option<Fail>, state: State) -> Fail
    ensures { result ≡ error_of failure state at (world engine.now) }
{
    match failure {
        Some(f) => f,
        None => engine.failure(run_state(state), at),
    }
}

/// What was read, or the error that nothing was.
pub(crate) fn settle<A: Drop>(
    engine: &Engine,
    at: Spot,
    failure: Option<Fail>,
    answer: Result<A, Unsettled>,
) -> Result<Result<A, Fail>, Memory>
    ensures { (reading : Reading Within A) (room : ℕ) (s : Standing) → s.world ≡ world engine.now
        → s.failure ≡ failure → ReadsKept (keep at room) reading answer s
        → IfOk result (λ end. EndsAs (settles reading at) end s) }
{
    match answer {
        Ok(x) => Ok(Ok(x)),
        Err(why) => match why {
            Unsettled::Fails(state) => Ok(Err(error(engine, at, failure, state))),
            Unsettled::Memory => Err(Memory),
        },
    }
}

// These lines are printed.
fn say<P: Port>(port: &mut P, lines: &[u8]) -> Result<(), Stop>
    ensures { (db : Database) → P.fits db port.old
        → Tells P.Port db result (Said lines.now ∷ []) port.old port.new }
{
    match port.say(lines) {
        Ok(()) => Ok(()),
        Err(PortFail::Device) => Err(Stop::Say),
        Err(PortFail::Memory) => Err(Stop::Memory),
    }
}

/// The pieces are printed, one after another.
pub(crate) fn tell<P: Port>(port: &mut P, pieces: &[Txt]) -> Result<(), Stop>
    ensures { (db : Database) → P.fits db port.old
        → Tells P.Port db result (said pieces.now) port.old port.new }
{
    for piece in pieces {
        match say(port, piece.as_bytes()) {
            Ok(()) => {}
            Err(stop) => return Err(stop),
        }
    }
    Ok(())
}

/// The engine comes back, and what was held is printed.
pub fn finish<'r, B: Start, P: Port, R: BodyRunner, A: Drop>(
    engine: &mut Engine,
    port: &mut P,
    at: Spot,
    calling: Calling<'r, B, R>,
    answer: Result<A, Unsettled>,
) -> Result<Result<A, Fail>, Stop>
    ensures is { (reading : Reading Within A) (room : ℕ) (old : declared.Engine)
        → world old ≡ B.begin
        → P.fits B.begin.last port.old
        → ReadsKept (keep at room) reading answer calling.entry
        → Answers P.Port (settles reading at) result old engine.new port.old port.new }
    ensures keeps { OnOk result (kept engine.new ≡ B.stays) }
{
    let Calling {
        engine: back,
        held,
        failure,
        is_lost,
        ..
    } = calling;
    *engine = back;
    if is_lost {
        return Err(Stop::Memory);
    }
    match settle(&*engine, at, failure, answer) {
        Ok(end) => match tell(port, held.pieces()) {
            Ok(()) => Ok(end),
            Err(stop) => Err(stop),
        },
        Err(_) => Err(Stop::Memory),
    }
}
