//! RETURNING: PostgreSQL manual, "Returning Data from Modified Rows".

ghost use Rattle.std.specs.Prelude.{◌≡◌, ◌∷◌, ◌++◌, [], List, IfOk};
ghost use Rattle.pl_altering.specs.Settings.{ReadsOver, setting_over};
ghost use Rattle.pl_altering.specs.declared.command.Command as running;
ghost use Rattle.pl_querying.specs.pl_calling.Standing.{Standing};
ghost use Rattle.pl_resolved.specs.declared.expression.RExpr as tree;
ghost use Rattle.pl_value.specs.Reading.{got};
ghost use Rattle.pl_world.specs.Changes as spec;

use crate::command::{Command, Inside};
use crate::reading::read_row;
use pl_base::{Cells, List, Value};
use pl_query::Rows;
use pl_querying::pl_calling::{Calling, Start};
use pl_querying::pl_engine::BodyRunner;
use pl_resolved::RExpr;
use pl_value::{Lent, Unsettled};
use pl_world::pl_change::copy_row;
use std::alloc::{AllocError, Global};

/// One row of RETURNING more.
pub(crate) fn add_shown(rows: Rows, shown: Cells) -> Result<Rows, Unsettled>
    ensures { (command : running.Command) (s : Standing)
        → ReadsOver command (λ x. got (rows ++ shown ∷ []) x) result s s }
{
    let mut rows = rows;
    rows.push(shown)?;
    Ok(rows)
}

/// What RETURNING shows of a row comes behind that of the others. It is empty where there is none.
pub(crate) fn show<'x, B: Start, R: BodyRunner>(
    command: &Command<'x>,
    inside: &Inside<'_, '_>,
    row: &'x [Value],
    rows: Rows,
    calling: &mut Calling<'_, B, R>,
) -> Result<Rows, Unsettled>
    ensures { ReadsOver command.now (λ x. spec.shown (setting_over command.now inside.now) row.now
        rows x) result calling.old calling.new }
{
    if command.change.returning.is_empty() {
        return add_shown(rows, List::new(command.alloc));
    }
    let returning = command.change.returning.as_slice();
    let frame = [
        Lent {
            cells: command.variables,
        },
        Lent { cells: &[] },
        Lent { cells: row },
    ];
    match read_row(command, inside, returning, &frame, calling) {
        Ok(shown) => add_shown(rows, shown),
        Err(why) => Err(why),
    }
}

/// A copy of the row, if RETURNING wants one.
pub(crate) fn copy_for(alloc: Global, returning: &[RExpr], row: &Cells) -> Result<Cells, AllocError>
    ensures { IfOk result (λ copied. (e : tree.RExpr) (more : List tree.RExpr)
        → returning.now ≡ e ∷ more → copied ≡ row.now) }
{
    match returning {
        [] => Ok(List::new(alloc)),
        [_, ..] => copy_row(alloc, row.as_slice()),
    }
}
