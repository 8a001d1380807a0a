//! The expressions of a command over the rows that stand.

ghost use Rattle.std.specs.Prelude.{◌≡◌, ◌-◌, [], ◌∷◌, ◌++◌, length, option_map, take, List, IfOk};
ghost use Rattle.std.specs.Prelude.{OnOk};
ghost use Rattle.pl_journal.specs.pl_catalog.declared.object.Object.{Object};
ghost use Rattle.pl_change.specs.Changes as spec;
ghost use Rattle.pl_change.specs.Running.{setting_of};
ghost use Rattle.pl_change.specs.declared.command.Command as running;
ghost use Rattle.pl_product.specs.Product as product;
ghost use Rattle.pl_value.specs.Answers.{Reads};
ghost use Rattle.pl_value.specs.Frames.{rows_of};
ghost use Rattle.pl_value.specs.Meaning.{value};

use crate::Command;
use pl_base::{Boxed, Cells, Value};
use pl_resolved::RExpr;
use pl_value::{Caller, Lent, Subqueries, Unsettled, passes, values};
use std::alloc::{AllocError, Global};

/// Those that stand around, with room for a row behind them.
pub(crate) fn with_room<'a>(alloc: Global, around: &[Lent<'a>]) -> Result<Vec<Lent<'a>>, AllocError>
    ensures { IfOk result (λ made. made.items ≡ around.now) }
{
    let mut made = Vec::with_capacity(alloc, around.len().saturating_add(1))?;
    made.extend_from_slice(around)?;
    Ok(made)
}

/// Puts the row behind those that stand.
pub(crate) fn push_row<'a>(frame: &mut Vec<Lent<'a>>, row: &'a [Value]) -> Result<(), AllocError>
    ensures { OnOk result (frame.new.items ≡ frame.old.items ++ record { cells = row.entry } ∷ []) }
{
    frame.push(Lent { cells: row })?;
    Ok(())
}

/// Takes the last of the rows that stand away.
pub(crate) fn pop_row(frame: &mut Vec<Lent<'_>>)
    ensures { frame.new.items ≡ take (length frame.old.items - 1) frame.old.items }
{
    frame.pop();
}

/// The row behind those that stand around.
pub(crate) fn stand<'a>(
    alloc: Global,
    around: &[Lent<'a>],
    row: &'a [Value],
) -> Result<Vec<Lent<'a>>, AllocError>
    ensures { IfOk result (λ made. rows_of made.items ≡ rows_of around.now ++ row.now ∷ []) }
{
    let mut made = with_room(alloc, around)?;
    push_row(&mut made, row)?;
    Ok(made)
}

/// RETURNING over a row.
pub(crate) fn show<C: Caller, S: Subqueries<C>>(
    alloc: Global,
    command: &Command<'_>,
    row: &[Value],
    sub: &S,
    caller: &mut C,
) -> Result<Cells, Unsettled>
    requires { S.can sub.now }
    ensures { (objects : List Object) → Reads (spec.returning (setting_of C.calls (S.sub sub.now)
        objects command.now) row.now caller.old)
        result caller.new }
{
    let frame = stand(alloc, &*command.around, row)?;
    values(
        alloc,
        command.change.returning.as_slice(),
        sub,
        frame.as_slice(),
        caller,
    )
}

// Whether WHERE passes over the rows that stand; one that is left out does.
fn passes_where<'a, C: Caller, S: Subqueries<C>>(
    alloc: Global,
    condition: &'a Option<Boxed<RExpr>>,
    sub: &S,
    frame: &[Lent<'a>],
    caller: &mut C,
) -> Result<bool, Unsettled>
    requires { S.can sub.now }
    ensures { Reads (product.passes (option_map (value C.calls (S.sub sub.now)) condition.now)
        (rows_of frame.now) caller.old)
        result caller.new }
{
    match condition {
        None => Ok(true),
        Some(condition) => passes(alloc, condition.get(), sub, frame, caller),
    }
}

// The values, if the rows that stand passed.
fn values_if<'a, C: Caller, S: Subqueries<C>>(
    alloc: Global,
    passed: bool,
    parts: &'a [RExpr],
    sub: &S,
    frame: &[Lent<'a>],
    caller: &mut C,
) -> Result<Option<Cells>, Unsettled>
    requires { S.can sub.now }
    ensures { (objects : List Object) (command : running.Command) → Reads (spec.values_if
        (setting_of C.calls (S.sub sub.now) objects command) passed parts.now (rows_of frame.now)
        caller.old)
        result caller.new }
{
    if passed {
        match values(alloc, parts, sub, frame, caller) {
            Ok(row) => Ok(Some(row)),
            Err(why) => Err(why),
        }
    } else {
        Ok(None)
    }
}

/// The values where these rows stand. None where they don't pass WHERE.
pub(crate) fn read_if<'a, C: Caller, S: Subqueries<C>>(
    alloc: Global,
    condition: &'a Option<Boxed<RExpr>>,
    parts: &'a [RExpr],
    sub: &S,
    frame: &[Lent<'a>],
    caller: &mut C,
) -> Result<Option<Cells>, Unsettled>
    requires { S.can sub.now }
    ensures { (objects : List Object) (command : running.Command) → Reads (spec.read_if
        (setting_of C.calls (S.sub sub.now) objects command) condition.now parts.now
        (rows_of frame.now) caller.old)
        result caller.new }
{
    match passes_where(alloc, condition, sub, frame, caller) {
        Ok(passed) => values_if(alloc, passed, parts, sub, frame, caller),
        Err(why) => Err(why),
    }
}
