//! What each row of a command does.

ghost use Rattle.std.specs.Prelude.{◌≡◌, IfOk, IsSome, List, OnOk, Some, option_map, slice_set};
ghost use Rattle.std.specs.Option.{option_copied};
ghost use Rattle.pl_journal.specs.pl_catalog.declared.object.Object.{Object};
ghost use Rattle.pl_change.specs.Changes as spec;
ghost use Rattle.pl_change.specs.Changes.{assigned, progress};
ghost use Rattle.pl_change.specs.Running.{reached, setting_of};
ghost use Rattle.pl_change.specs.declared.command.Command as running;
ghost use Rattle.pl_journal.specs.Journal.{ChangesOnly};
ghost use Rattle.pl_tables.specs.Named.{row_named};
ghost use Rattle.pl_value.specs.Answers.{Reads};
ghost use Rattle.pl_value.specs.Frames.{rows_of};
ghost use Rattle.pl_value.specs.Meaning.{Calls, Sub};
ghost use Rattle.pl_value.specs.Reading.{got, then_read};

use crate::Command;
use crate::at_start::copy_row;
use crate::evaluation::{read_if, stand};
use crate::writing::write_row;
use pl_base::{Boxed, Cells, Name, State, Value};
use pl_inside::pl_query::Rows;
use pl_journal::Journal;
use pl_resolved::RExpr;
use pl_value::{Caller, Lent, Subqueries, Unsettled, values as read_values};
use std::alloc::{AllocError, Global};

/// INSERT of one row.
pub(crate) fn add_row<'a, C: Caller, S: Subqueries<C>>(
    alloc: Global,
    command: &Command<'a>,
    parts: &'a [RExpr],
    sub: &S,
    frame: &[Lent<'a>],
    journal: &mut Journal,
    rows: Rows,
    caller: &mut C,
) -> Result<Rows, Unsettled>
    requires { S.can sub.now }
    ensures reads { (objects : List Object) → objects ≡ journal.old.now.objects
        → Reads (spec.adds (setting_of C.calls (S.sub sub.now) objects command.now) parts.now
        (rows_of frame.now) (progress journal.old.now.tables rows) caller.old)
        (reached result journal.new.now.tables) caller.new }
    ensures only { ChangesOnly command.now.change.now.table journal.old journal.new }
{
    match read_values(alloc, &*parts, &*sub, &*frame, caller) {
        Ok(row) => write_row(alloc, &*command, None, row, sub, journal, rows, caller),
        Err(why) => Err(why),
    }
}

// The row of this id in the table of this name.
fn row_of(journal: &Journal, name: Name, id: u64) -> Option<&Cells>
    ensures { option_copied result ≡ row_named name id journal.now.now.tables }
{
    match journal.tables().table(name) {
        Some(table) => table.row(id),
        None => None,
    }
}

// The row with these values in these columns.
#[tactic(auto, using(crate::proofs::Assigned::no_values))]
fn assign(
    alloc: Global,
    mut columns: &[usize],
    mut values: &[Value],
    row: &[Value],
) -> Result<Cells, AllocError>
    ensures { IfOk result (λ made. made
        ≡ assigned columns.entry.now values.entry.now row.now) }
{
    let mut made = copy_row(alloc, row)?;
    while let [column, others @ ..] = columns {
        let [value, more @ ..] = values else {
            return Ok(made);
        };
        set_cell(&mut made, *column, value.copy(alloc)?);
        columns = others;
        values = more;
    }
    Ok(made)
}

// A column that isn't there is left out.
fn set_cell(row: &mut Cells, column: usize, value: Value)
    ensures { row.new ≡ slice_set row.old column value }
{
    if column < row.len() {
        row.set(column, value);
    }
}

// The same, as what there is of a row that passed.
fn assign_all<C>(
    alloc: Global,
    columns: &[usize],
    values: &[Value],
    row: &[Value],
) -> Result<Option<Cells>, Unsettled>
    ensures { (w : C) → Reads (got (Some (assigned columns.now values.now row.now)) w) result w }
{
    let made = assign(alloc, columns, values, row)?;
    Ok(Some(made))
}

// The same, if there are values.
fn assign_if<C>(
    alloc: Global,
    columns: &[usize],
    values: Option<Cells>,
    row: &[Value],
) -> Result<Option<Cells>, Unsettled>
    ensures { (w : C) → Reads (got (option_map (λ vs. assigned columns.now vs row.now) values) w)
        result w }
{
    match values {
        None => Ok(None),
        Some(values) => assign_all::<C>(alloc, columns, values.as_slice(), row),
    }
}

// What SET makes of a row, where these stand. None where they don't pass WHERE.
fn set_over<'a, C: Caller, S: Subqueries<C>>(
    alloc: Global,
    columns: &[usize],
    values: &'a [RExpr],
    condition: &'a Option<Boxed<RExpr>>,
    row: &[Value],
    sub: &S,
    frame: &[Lent<'a>],
    caller: &mut C,
) -> Result<Option<Cells>, Unsettled>
    requires { S.can sub.now }
    ensures { (objects : List Object) (command : running.Command) → Reads (then_read (spec.read_if
        (setting_of C.calls (S.sub sub.now) objects command) condition.now values.now
        (rows_of frame.now) caller.old)
        (λ vs w. got (option_map (λ vs. assigned columns.now vs row.now) vs) w))
        result caller.new }
{
    match read_if(alloc, condition, values, sub, frame, caller) {
        Ok(values) => assign_if::<C>(alloc, columns, values, row),
        Err(why) => Err(why),
    }
}

// What SET makes of a row. None where it doesn't pass WHERE.
fn set_if<'a, C: Caller, S: Subqueries<C>>(
    alloc: Global,
    command: &Command<'a>,
    columns: &[usize],
    values: &'a [RExpr],
    condition: &'a Option<Boxed<RExpr>>,
    row: &'a [Value],
    sub: &S,
    caller: &mut C,
) -> Result<Option<Cells>, Unsettled>
    requires { S.can sub.now }
    ensures { (objects : List Object) → Reads (spec.set_if (setting_of C.calls (S.sub sub.now)
        objects command.now) columns.now values.now condition.now row.now caller.old)
        result caller.new }
{
    let frame = stand(alloc, &*command.around, row)?;
    set_over(
        alloc,
        columns,
        values,
        condition,
        row,
        sub,
        frame.as_slice(),
        caller,
    )
}

// What SET makes of the row of this id.
fn set_row<'a, C: Caller, S: Subqueries<C>>(
    alloc: Global,
    command: &Command<'a>,
    columns: &[usize],
    values: &'a [RExpr],
    condition: &'a Option<Boxed<RExpr>>,
    id: u64,
    sub: &S,
    journal: &'a Journal,
    caller: &mut C,
) -> Result<Option<Cells>, Unsettled>
    requires { S.can sub.now }
    ensures reads { (objects : List Object) →
        let s = setting_of C.calls (S.sub sub.now) objects command.now in
        Reads (spec.at_row s (spec.set_if s columns.now values.now condition.now) id
        journal.now.now.tables caller.old)
        result caller.new }
    ensures there { OnOk result (IsSome (row_named command.now.change.now.table id
        journal.now.now.tables)) }
{
    match row_of(journal, command.change.table, id) {
        Some(row) => set_if(
            alloc,
            &*command,
            columns,
            values,
            condition,
            row.as_slice(),
            sub,
            caller,
        ),
        None => Err(Unsettled::Fails(State::TRIGGERED_DATA_CHANGE_VIOLATION)),
    }
}

// The row is written in the place of the row of this id, if there is one to write.
fn write_if<C: Caller, S: Subqueries<C>>(
    alloc: Global,
    command: &Command<'_>,
    id: u64,
    row: Option<Cells>,
    sub: &S,
    journal: &mut Journal,
    rows: Rows,
    caller: &mut C,
) -> Result<Rows, Unsettled>
    requires can { S.can sub.now }
    requires there { IsSome (row_named command.now.change.now.table id journal.old.now.tables) }
    ensures reads { (objects : List Object) → objects ≡ journal.old.now.objects →
        let s = setting_of C.calls (S.sub sub.now) objects command.now in
        Reads (spec.if_some s (spec.writes s (Some id)) row
        (progress journal.old.now.tables rows) caller.old)
        (reached result journal.new.now.tables) caller.new }
    ensures only { ChangesOnly command.now.change.now.table journal.old journal.new }
{
    match row {
        None => Ok(rows),
        Some(row) => write_row(alloc, &*command, Some(id), row, sub, journal, rows, caller),
    }
}

/// UPDATE of the row of this id.
pub(crate) fn update_row<'a, C: Caller, S: Subqueries<C>>(
    alloc: Global,
    command: &Command<'a>,
    columns: &[usize],
    values: &'a [RExpr],
    condition: &'a Option<Boxed<RExpr>>,
    id: u64,
    sub: &S,
    journal: &mut Journal,
    rows: Rows,
    caller: &mut C,
) -> Result<Rows, Unsettled>
    requires { S.can sub.now }
    ensures reads { (objects : List Object) → objects ≡ journal.old.now.objects
        → Reads (spec.updates (setting_of C.calls (S.sub sub.now) objects command.now) columns.now
        values.now condition.now id (progress journal.old.now.tables rows) caller.old)
        (reached result journal.new.now.tables) caller.new }
    ensures only { ChangesOnly command.now.change.now.table journal.old journal.new }
{
    match set_row(
        alloc,
        &*command,
        columns,
        &*values,
        &*condition,
        id,
        &*sub,
        &*journal,
        caller,
    ) {
        Ok(row) => write_if(alloc, &*command, id, row, sub, journal, rows, caller),
        Err(why) => Err(why),
    }
}

// What RETURNING shows of a row. None where it doesn't pass WHERE.
fn show_if<'a, C: Caller, S: Subqueries<C>>(
    alloc: Global,
    command: &Command<'a>,
    condition: &'a Option<Boxed<RExpr>>,
    row: &'a [Value],
    sub: &S,
    caller: &mut C,
) -> Result<Option<Cells>, Unsettled>
    requires { S.can sub.now }
    ensures { (objects : List Object) → Reads (spec.shown_if (setting_of C.calls (S.sub sub.now)
        objects command.now) condition.now row.now caller.old)
        result caller.new }
{
    let frame = stand(alloc, &*command.around, row)?;
    read_if(
        alloc,
        condition,
        command.change.returning.as_slice(),
        sub,
        frame.as_slice(),
        caller,
    )
}

// What RETURNING shows of the row of this id.
fn show_row<'a, C: Caller, S: Subqueries<C>>(
    alloc: Global,
    command: &Command<'a>,
    condition: &'a Option<Boxed<RExpr>>,
    id: u64,
    sub: &S,
    journal: &'a Journal,
    caller: &mut C,
) -> Result<Option<Cells>, Unsettled>
    requires { S.can sub.now }
    ensures reads { (objects : List Object) →
        let s = setting_of C.calls (S.sub sub.now) objects command.now in
        Reads (spec.at_row s (spec.shown_if s condition.now) id journal.now.now.tables caller.old)
        result caller.new }
    ensures there { OnOk result (IsSome (row_named command.now.change.now.table id
        journal.now.now.tables)) }
{
    match row_of(journal, command.change.table, id) {
        Some(row) => show_if(alloc, &*command, condition, row.as_slice(), sub, caller),
        None => Err(Unsettled::Fails(State::TRIGGERED_DATA_CHANGE_VIOLATION)),
    }
}

// Takes the row of this id out, of which this is shown.
fn take_row<C>(
    command: &Command<'_>,
    id: u64,
    shown: Cells,
    journal: &mut Journal,
    rows: Rows,
) -> Result<Rows, Unsettled>
    requires { IsSome (row_named command.now.change.now.table id journal.old.now.tables) }
    ensures reads { (calls : Calls C) (inner : Sub C) (objects : List Object) (w : C)
        → Reads (spec.takes (setting_of calls inner objects command.now) id shown
        (progress journal.old.now.tables rows) w)
        (reached result journal.new.now.tables) w }
    ensures only { ChangesOnly command.now.change.now.table journal.old journal.new }
{
    let mut rows = rows;
    rows.push(shown)?;
    journal.remove(command.change.table, id)?;
    Ok(rows)
}

// The same, if something is shown.
fn take_if<C>(
    command: &Command<'_>,
    id: u64,
    shown: Option<Cells>,
    journal: &mut Journal,
    rows: Rows,
) -> Result<Rows, Unsettled>
    requires { IsSome (row_named command.now.change.now.table id journal.old.now.tables) }
    ensures reads { (calls : Calls C) (inner : Sub C) (objects : List Object) (w : C) →
        let s = setting_of calls inner objects command.now in
        Reads (spec.if_some s (spec.takes s id) shown (progress journal.old.now.tables rows) w)
        (reached result journal.new.now.tables) w }
    ensures only { ChangesOnly command.now.change.now.table journal.old journal.new }
{
    match shown {
        None => Ok(rows),
        Some(shown) => take_row::<C>(command, id, shown, journal, rows),
    }
}

/// DELETE of the row of this id.
pub(crate) fn delete_row<'a, C: Caller, S: Subqueries<C>>(
    alloc: Global,
    command: &Command<'a>,
    condition: &'a Option<Boxed<RExpr>>,
    id: u64,
    sub: &S,
    journal: &mut Journal,
    rows: Rows,
    caller: &mut C,
) -> Result<Rows, Unsettled>
    requires { S.can sub.now }
    ensures reads { (objects : List Object) → objects ≡ journal.old.now.objects
        → Reads (spec.deletes (setting_of C.calls (S.sub sub.now) objects command.now) condition.now
        id (progress journal.old.now.tables rows) caller.old)
        (reached result journal.new.now.tables) caller.new }
    ensures only { ChangesOnly command.now.change.now.table journal.old journal.new }
{
    match show_row(alloc, &*command, &*condition, id, sub, &*journal, caller) {
        Ok(shown) => take_if::<C>(command, id, shown, journal, rows),
        Err(why) => Err(why),
    }
}
