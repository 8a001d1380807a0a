//! The expressions of a change over the rows that stand.

ghost use Rattle.std.specs.Prelude.{[], option_map};
ghost use Rattle.pl_altering.specs.Settings.{ReadsOver, setting_over};
ghost use Rattle.pl_product.specs.Product.{passes as passes_if};
ghost use Rattle.pl_value.specs.Answers.{Reads};
ghost use Rattle.pl_value.specs.Frames.{rows_of};
ghost use Rattle.pl_value.specs.Meaning as meaning;
ghost use Rattle.pl_value.specs.Reading.{then_read};
ghost use Rattle.pl_world.specs.Changes as spec;

use crate::command::{Command, Inside};
use pl_base::{Boxed, Cells};
use pl_querying::pl_calling::{Calling, Start};
use pl_querying::pl_engine::BodyRunner;
use pl_resolved::RExpr;
use pl_value::{Caller, Lent, Subqueries, Unsettled, passes, values};
use std::alloc::Global;

// Whether WHERE passes over the rows that stand; one that is left out does.
fn passes_where<'a, C: Caller, S: Subqueries<C>>(
    alloc: Global,
    condition: &'a Option<Boxed<RExpr>>,
    sub: &S,
    frame: &[Lent<'a>],
    caller: &mut C,
) -> Result<bool, Unsettled>
    requires { S.can sub.now }
    ensures { Reads (passes_if (option_map (meaning.value C.calls (S.sub sub.now)) condition.now)
        (rows_of frame.now) caller.old)
        result caller.new }
{
    match condition {
        None => Ok(true),
        Some(condition) => passes(alloc, condition.get(), sub, frame, caller),
    }
}

/// Whether WHERE passes.
pub(crate) fn read_where<B: Start, R: BodyRunner>(
    command: &Command<'_>,
    inside: &Inside<'_, '_>,
    condition: &Option<Boxed<RExpr>>,
    frame: &[Lent<'_>],
    calling: &mut Calling<'_, B, R>,
) -> Result<bool, Unsettled>
    ensures { let s = setting_over command.now inside.now in
        ReadsOver command.now (λ x. passes_if (option_map (meaning.value s.calls s.inner)
        condition.now) (rows_of frame.now) x) result calling.old calling.new }
{
    passes_where(command.alloc, condition, inside, frame, calling)
}

/// The values of these expressions.
pub(crate) fn read_row<B: Start, R: BodyRunner>(
    command: &Command<'_>,
    inside: &Inside<'_, '_>,
    parts: &[RExpr],
    frame: &[Lent<'_>],
    calling: &mut Calling<'_, B, R>,
) -> Result<Cells, Unsettled>
    ensures { let s = setting_over command.now inside.now in
        ReadsOver command.now (λ x. meaning.values (spec.meanings s parts.now) []
        (rows_of frame.now) x) result calling.old calling.new }
{
    values(command.alloc, parts, inside, frame, calling)
}

// The values, if the rows that stand passed.
fn read_passed<B: Start, R: BodyRunner>(
    command: &Command<'_>,
    inside: &Inside<'_, '_>,
    passed: bool,
    parts: &[RExpr],
    frame: &[Lent<'_>],
    calling: &mut Calling<'_, B, R>,
) -> Result<Option<Cells>, Unsettled>
    ensures { ReadsOver command.now (λ x. spec.values_if (setting_over command.now inside.now)
        passed parts.now (rows_of frame.now) x) result calling.old calling.new }
{
    if passed {
        match read_row(command, inside, parts, frame, calling) {
            Ok(row) => Ok(Some(row)),
            Err(why) => Err(why),
        }
    } else {
        Ok(None)
    }
}

/// The values over the rows that stand. None where they don't pass WHERE.
pub(crate) fn read_if<B: Start, R: BodyRunner>(
    command: &Command<'_>,
    inside: &Inside<'_, '_>,
    condition: &Option<Boxed<RExpr>>,
    parts: &[RExpr],
    frame: &[Lent<'_>],
    calling: &mut Calling<'_, B, R>,
) -> Result<Option<Cells>, Unsettled>
    ensures { let s = setting_over command.now inside.now in
        ReadsOver command.now (λ x. then_read (passes_if (option_map (meaning.value s.calls s.inner)
        condition.now) (rows_of frame.now) x) (λ b x.
        spec.values_if s b parts.now (rows_of frame.now) x)) result calling.old calling.new }
{
    match read_where(command, inside, condition, frame, calling) {
        Ok(passed) => read_passed(command, inside, passed, parts, frame, calling),
        Err(why) => Err(why),
    }
}
