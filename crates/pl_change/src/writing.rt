//! One row is written: its rules, the write, RETURNING.

ghost use Rattle.std.specs.Prelude.{◌≡◌, [], ◌∷◌, ◌++◌, IfOk, List};
ghost use Rattle.pl_journal.specs.pl_catalog.declared.object.Object.{Object};
ghost use Rattle.pl_change.specs.Changes as spec;
ghost use Rattle.pl_change.specs.Changes.{progress};
ghost use Rattle.pl_change.specs.Running.{reached, setting_of, HasRow};
ghost use Rattle.pl_journal.specs.Journal.{ChangesOnly, Leads};
ghost use Rattle.pl_journal.specs.Writing.{written};
ghost use Rattle.pl_resolved.specs.declared.expression.RExpr as tree;
ghost use Rattle.pl_tables.specs.Named.{Named};
ghost use Rattle.pl_value.specs.Answers.{Reads};
ghost use Rattle.pl_value.specs.Reading.{got};

use crate::Command;
use crate::at_start::copy_row;
use crate::evaluation::show;
use pl_base::{Cells, List, Value};
use pl_inside::pl_query::Rows;
use pl_journal::Journal;
use pl_resolved::RExpr;
use pl_value::{Caller, Subqueries, Unsettled};
use std::alloc::{AllocError, Global};

// Adds the row under a new id, or puts it in the place of the row of this id.
fn write(
    command: &Command<'_>,
    id: Option<u64>,
    row: Cells,
    journal: &mut Journal,
) -> Result<(), Unsettled>
    requires { HasRow command.now.change.now.table id journal.old.now.tables }
    ensures leads { Leads (written journal.old.now.objects command.now.change.now.table id row
        journal.old.now.tables) result journal.new.now.tables }
    ensures only { ChangesOnly command.now.change.now.table journal.old journal.new }
{
    match id {
        None => journal.insert(command.change.table, row),
        Some(id) => journal.replace(command.change.table, id, row),
    }
}

// A row of RETURNING more.
fn add_shown<C>(rows: Rows, shown: Cells) -> Result<Rows, Unsettled>
    ensures { (tables : List Named) (w : C)
        → Reads (got (progress tables (rows ++ shown ∷ [])) w) (reached result tables) w }
{
    let mut rows = rows;
    rows.push(shown)?;
    Ok(rows)
}

// What RETURNING shows of a row that was written.
fn tell_shown<C: Caller, S: Subqueries<C>>(
    alloc: Global,
    command: &Command<'_>,
    row: &[Value],
    sub: &S,
    rows: Rows,
    caller: &mut C,
) -> Result<Rows, Unsettled>
    requires { S.can sub.now }
    ensures { (objects : List Object) (tables : List Named) → Reads (spec.told (setting_of C.calls
        (S.sub sub.now) objects command.now) row.now (progress tables rows) caller.old)
        (reached result tables) caller.new }
{
    match show(alloc, &*command, row, sub, caller) {
        Ok(shown) => add_shown::<C>(rows, shown),
        Err(why) => Err(why),
    }
}

// RETURNING of a row that was written. Where there is none, no row has to stand.
fn tell<C: Caller, S: Subqueries<C>>(
    alloc: Global,
    command: &Command<'_>,
    row: &[Value],
    sub: &S,
    rows: Rows,
    caller: &mut C,
) -> Result<Rows, Unsettled>
    requires { S.can sub.now }
    ensures { (objects : List Object) (tables : List Named) → Reads (spec.told (setting_of C.calls
        (S.sub sub.now) objects command.now) row.now (progress tables rows) caller.old)
        (reached result tables) caller.new }
{
    if command.change.returning.is_empty() {
        let shown = List::new(alloc);
        return add_shown::<C>(rows, shown);
    }
    tell_shown(alloc, &*command, row, sub, rows, caller)
}

// A copy of the row, if RETURNING wants one.
fn copy_for(alloc: Global, returning: &[RExpr], row: &Cells) -> Result<Cells, AllocError>
    ensures { IfOk result (λ copied. (e : tree.RExpr) (more : List tree.RExpr)
        → returning.now ≡ e ∷ more → copied ≡ row.now) }
{
    match returning {
        [] => Ok(List::new(alloc)),
        [_, ..] => copy_row(alloc, row.as_slice()),
    }
}

/// Writes a row, under a new id or in the place of the row of this id, and adds what RETURNING
/// shows of it.
pub(crate) fn write_row<C: Caller, S: Subqueries<C>>(
    alloc: Global,
    command: &Command<'_>,
    id: Option<u64>,
    row: Cells,
    sub: &S,
    journal: &mut Journal,
    rows: Rows,
    caller: &mut C,
) -> Result<Rows, Unsettled>
    requires can { S.can sub.now }
    requires there { HasRow command.now.change.now.table id journal.old.now.tables }
    ensures reads { (objects : List Object) → objects ≡ journal.old.now.objects
        → Reads (spec.writes (setting_of C.calls (S.sub sub.now) objects command.now) id row
        (progress journal.old.now.tables rows) caller.old)
        (reached result journal.new.now.tables) caller.new }
    ensures only { ChangesOnly command.now.change.now.table journal.old journal.new }
{
    let copied = copy_for(alloc, command.change.returning.as_slice(), &row)?;
    match write(&*command, id, row, journal) {
        Ok(()) => tell(alloc, &*command, copied.as_slice(), &*sub, rows, caller),
        Err(why) => Err(why),
    }
}
