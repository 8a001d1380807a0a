//! What an error says: PostgreSQL manual, "PL/pgSQL", "Obtaining Information about an Error".

ghost use Rattle.std.specs.Prelude.{◌≡◌, IfOk};
ghost use Rattle.pl_print.specs.Messages as messages;

use pl_base::{Fail, Message, State, Txt, name_of};
use std::alloc::{AllocError, Global};

// The name of the condition of a SQLSTATE, and the SQLSTATE itself where it has none.
fn name_text(alloc: Global, state: State) -> Result<Txt, AllocError>
    ensures { IfOk result (λ text. text ≡ messages.condition_name state.code) }
{
    match name_of(state) {
        Some(name) => Txt::from_slice(alloc, name.as_bytes()),
        None => Txt::from_slice(alloc, &state.code),
    }
}

/// What an error says: its own text, or the name of its condition.
pub fn message_text(alloc: Global, fail: &Fail) -> Result<Txt, AllocError>
    ensures { IfOk result (λ text.
        text ≡ messages.message_text fail.now.state.code fail.now.message) }
{
    match &fail.message {
        Message::Standard => name_text(alloc, fail.state),
        Message::Text(text) => text.copy(alloc),
    }
}
