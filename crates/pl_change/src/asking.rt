//! Whether the expressions that a command reads row by row have queries inside.

ghost use Rattle.std.specs.Prelude.{◌≡◌, false};
ghost use Rattle.pl_change.specs.Running.{AreSameRows, ChangeIsSame, SourceIsSame, WhatIsSame};
ghost use Rattle.pl_value.specs.Meaning.{Calls, Sub};

use pl_inside::{any_has_query, if_has_query};
use pl_targets::{RChange, RRow, RRows, RWhat};

/// Whether an expression that the command reads row by row has a query inside. The query whose rows
/// an INSERT adds isn't one of these.
pub(crate) fn asks<C>(change: &RChange) -> bool
    ensures { result ≡ false → (calls : Calls C) (these those : Sub C)
        → ChangeIsSame calls these those change.now }
{
    if any_has_query::<C>(change.returning.as_slice()) {
        return true;
    }
    what_asks::<C>(&change.what)
}

fn what_asks<C>(what: &RWhat) -> bool
    ensures { result ≡ false → (calls : Calls C) (these those : Sub C)
        → WhatIsSame calls these those what.now }
{
    match what {
        RWhat::Insert(source) => source_asks::<C>(source),
        RWhat::Update {
            values,
            condition,
            ..
        } => {
            if any_has_query::<C>(values.as_slice()) {
                return true;
            }
            if_has_query::<C>(condition)
        }
        RWhat::Delete { condition } => if_has_query::<C>(condition),
    }
}

fn source_asks<C>(source: &RRows) -> bool
    ensures { result ≡ false → (calls : Calls C) (these those : Sub C)
        → SourceIsSame calls these those source.now }
{
    match source {
        RRows::Values(list) => any_row_asks::<C>(list.as_slice()),
        RRows::Query { values, .. } => any_has_query::<C>(values.as_slice()),
    }
}

fn any_row_asks<C>(rows: &[RRow]) -> bool
    ensures { result ≡ false → (calls : Calls C) (these those : Sub C)
        → AreSameRows calls these those rows.now }
{
    for row in rows {
        if any_has_query::<C>(row.values.as_slice()) {
            return true;
        }
    }
    false
}
