//! Operands that stand where the expression names them: they are read in place.

ghost use Rattle.std.specs.Prelude.{◌≡◌, IfSome};
ghost use Rattle.std.specs.Option.{option_copied};
ghost use Rattle.pl_value.specs.Frames.{cell, or_null, rows_of};
ghost use Rattle.pl_value.specs.Meaning as spec;
ghost use Rattle.pl_value.specs.Meaning.{Calls, Sub};
ghost use Rattle.pl_value.specs.Reading.{got};

use crate::{Lent, Operand};
use pl_base::Value;
use pl_resolved::RExpr;

/// The value at a place of the rows that stand. None where there is none.
pub fn cell_at<'a>(frame: &[Lent<'a>], row: usize, column: usize) -> Option<&'a Value>
    ensures { option_copied result ≡ cell (rows_of frame.now) row column }
{
    match frame.get(row) {
        Some(lent) => lent.cells.get(column),
        None => None,
    }
}

/// The same as an operand, null where there is none.
pub(crate) fn placed<'a>(frame: &[Lent<'a>], row: usize, column: usize) -> Operand<'a>
    ensures { result ≡ or_null (cell (rows_of frame.now) row column) }
{
    match cell_at(frame, row, column) {
        Some(value) => Operand::lent(value),
        None => Operand::made(Value::Null),
    }
}

/// The value of an expression that names one which stands. None where it has to be made.
pub fn leaf<'a, C>(e: &'a RExpr, frame: &[Lent<'a>]) -> Option<&'a Value>
    ensures { IfSome result (λ v. (calls : Calls C) (sub : Sub C) (caller : C)
        → spec.value calls sub e.now (rows_of frame.now) caller ≡ got v.now caller) }
{
    match e {
        RExpr::Constant(value) => Some(value),
        RExpr::Place { row, column } => cell_at(frame, *row, *column),
        _ => None,
    }
}
