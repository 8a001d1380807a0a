//! Notices of the engine: each says the name of its condition.

ghost use Rattle.std.specs.Prelude.{◌≡◌, IfOk};
ghost use Rattle.pl_control.specs.Noted.{notes};
ghost use Rattle.pl_engine.specs.Answers.{Answers};
ghost use Rattle.pl_engine.specs.Engines.{world};
ghost use Rattle.pl_engine.specs.pl_world.Replies.{notice_line};

use pl_base::{Bytes, Fail, Memory, State};
use pl_engine::{Engine, Port, Spot, Stop, message_text, say};
use pl_print::{Level, notice};

// The line of a notice, which says what an error of its condition says.
fn line_of(engine: &Engine, at: Spot, state: State) -> Result<Bytes, Memory>
    ensures { IfOk result (λ line. line ≡ notice_line state) }
{
    let alloc = engine.alloc();
    let text = message_text(alloc, &engine.failure(state, at))?;
    notice(alloc, Level::Notice, &text, None, None)
}

/// Prints a notice, if there is one.
pub(crate) fn note<P: Port>(
    engine: &Engine,
    port: &mut P,
    at: Spot,
    state: Option<State>,
) -> Result<Result<(), Fail>, Stop>
    requires fits { P.fits (world engine.now).last port.old }
    ensures { Answers P.Port (notes state (world engine.now)) result engine.now engine.now
        port.old port.new }
{
    let Some(state) = state else {
        return Ok(Ok(()));
    };
    let Ok(line) = line_of(engine, at, state) else {
        return Err(Stop::Memory);
    };
    match say(engine, port, line.as_slice()) {
        Ok(_) => Ok(Ok(())),
        Err(stop) => Err(stop),
    }
}
