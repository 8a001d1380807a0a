//! GET STACKED DIAGNOSTICS: PostgreSQL manual, "PL/pgSQL", "Obtaining Information about an Error".

ghost use Rattle.std.specs.Prelude.{◌≡◌, [], map, IfOk, unwrap_or};
ghost use Rattle.pl_asking.specs.pl_engine.Engines.{Quiet, kept, world};
ghost use Rattle.pl_world.specs.Assigning as spec;

use crate::handled::handled_error;
use pl_asking::pl_engine::{Engine, Spot, message_text};
use pl_asking::put_at;
use pl_base::{Fail, Memory, State, Txt, Value};
use pl_bodies::{StackedItem, StackedTarget};
use pl_world::Outcome;
use std::alloc::{AllocError, Global};

// A text, or an empty one where there is none.
fn text_or_empty(alloc: Global, text: &Option<Txt>) -> Result<Txt, AllocError>
    ensures { IfOk result (λ made. made ≡ unwrap_or text.now []) }
{
    match text {
        Some(text) => text.copy(alloc),
        None => Txt::from_slice(alloc, b""),
    }
}

fn item_text(alloc: Global, item: StackedItem, f: &Fail) -> Result<Txt, AllocError>
    ensures { IfOk result (λ text. text ≡ spec.item_text item f.now) }
{
    match item {
        StackedItem::ReturnedSqlstate => Txt::from_slice(alloc, &f.state.code),
        StackedItem::MessageText => message_text(alloc, f),
        StackedItem::PgExceptionDetail => text_or_empty(alloc, &f.detail),
        StackedItem::PgExceptionHint => text_or_empty(alloc, &f.hint),
    }
}

// What the error is, for each of the targets.
fn diagnose(
    engine: &mut Engine,
    at: Spot,
    targets: &[StackedTarget],
    f: &Fail,
) -> Result<Outcome, Memory>
    ensures is { IfOk result (λ end.
        Quiet (spec.put_each (map (spec.stacked f.now) targets.now) at (world engine.old)) end
        engine.old engine.new) }
    ensures keeps { IfOk result (λ end. kept engine.new ≡ kept engine.old) }
{
    for one in targets {
        let text = item_text(engine.alloc(), one.item, f)?;
        let value = Value::Text(text);
        match put_at(engine, at, &one.target, &value)? {
            Outcome::Next => {}
            other => return Ok(other),
        }
    }
    Ok(Outcome::Next)
}

/// GET STACKED DIAGNOSTICS: what the error is that the newest call handles. Each target is resolved
/// when it is reached. 0Z002 where no error is handled.
pub fn diagnose_stacked(
    engine: &mut Engine,
    at: Spot,
    targets: &[StackedTarget],
) -> Result<Outcome, Memory>
    ensures is { IfOk result (λ end.
        Quiet (spec.stacked_diagnosed targets.now at (world engine.old)) end
        engine.old engine.new) }
    ensures keeps { IfOk result (λ end. kept engine.new ≡ kept engine.old) }
{
    match handled_error(engine)? {
        Some(f) => diagnose(engine, at, targets, &f),
        None => Ok(engine.raise(
            State::STACKED_DIAGNOSTICS_ACCESSED_WITHOUT_ACTIVE_HANDLER,
            at,
        )),
    }
}
