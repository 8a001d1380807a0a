//! The error that a call handles: PostgreSQL manual, "PL/pgSQL", "Trapping Errors".

ghost use Rattle.std.specs.Prelude.{◌≡◌, IfOk, slice_get};
ghost use Rattle.pl_asking.specs.pl_engine.Engines.{world};

use pl_asking::pl_engine::Engine;
use pl_base::{Fail, Message, Txt};
use std::alloc::{AllocError, Global};

fn copy_message(alloc: Global, message: &Message) -> Result<Message, AllocError>
    ensures { IfOk result (λ copied. copied ≡ message.now) }
{
    match message {
        Message::Standard => Ok(Message::Standard),
        Message::Text(text) => Ok(Message::Text(text.copy(alloc)?)),
    }
}

fn copy_if_given(alloc: Global, text: &Option<Txt>) -> Result<Option<Txt>, AllocError>
    ensures { IfOk result (λ copied. copied ≡ text.now) }
{
    match text {
        Some(text) => Ok(Some(text.copy(alloc)?)),
        None => Ok(None),
    }
}

fn copy_fail(alloc: Global, f: &Fail) -> Result<Fail, AllocError>
    ensures { IfOk result (λ copied. copied ≡ f.now) }
{
    Ok(Fail {
        state: f.state,
        message: copy_message(alloc, &f.message)?,
        detail: copy_if_given(alloc, &f.detail)?,
        hint: copy_if_given(alloc, &f.hint)?,
        origin: f.origin,
        place: f.place,
    })
}

/// A copy of the error that the newest call handles, the newest where it handles several.
pub(crate) fn handled_error(engine: &Engine) -> Result<Option<Fail>, AllocError>
    ensures { IfOk result (λ f. f ≡ slice_get (world engine.now).frame.handled 0) }
{
    match engine.handled().last() {
        Some(f) => Ok(Some(copy_fail(engine.alloc(), f)?)),
        None => Ok(None),
    }
}
