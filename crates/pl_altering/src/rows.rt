//! The rows of a change. Each is read, written and shown before the next.

ghost use Rattle.std.specs.Prelude.{Some, if◌then◌else◌};
ghost use Rattle.pl_altering.specs.Entries.{entry_of};
ghost use Rattle.pl_altering.specs.Settings.{ReadsOver, setting_over};
ghost use Rattle.pl_querying.specs.pl_calling.Writing.{WroteIn};
ghost use Rattle.pl_world.specs.pl_change.Running.{HasRow};
ghost use Rattle.pl_world.specs.pl_journal.Writing.{written};
ghost use Rattle.pl_value.specs.Frames.{rows_of};
ghost use Rattle.pl_value.specs.Reading.{got};
ghost use Rattle.pl_world.specs.Changes as spec;

use crate::assigning::assign;
use crate::command::{Command, Inside};
use crate::keeping::{Entry, is_still};
use crate::reading::{read_if, read_row, read_where};
use crate::showing::{copy_for, show};
use pl_base::{Boxed, Cells, State, Value};
use pl_query::Rows;
use pl_querying::pl_calling::{Calling, Start};
use pl_querying::pl_engine::BodyRunner;
use pl_resolved::RExpr;
use pl_value::{Lent, Unsettled};

// ---- INSERT

// The row is put under a new id, or in the place of the row of this id.
fn put<B: Start, R: BodyRunner>(
    command: &Command<'_>,
    id: Option<u64>,
    row: Cells,
    calling: &mut Calling<'_, B, R>,
) -> Result<(), Unsettled>
    requires there { HasRow command.now.change.now.table id calling.old.world.database.tables }
    ensures { WroteIn (written calling.old.world.database.objects command.now.change.now.table id
        row calling.old.world.database.tables) result calling.old calling.new }
{
    match id {
        None => calling.insert(command.change.table, row),
        Some(id) => calling.replace(command.change.table, id, row),
    }
}

// The row is written, and shown.
fn write_row<B: Start, R: BodyRunner>(
    command: &Command<'_>,
    inside: &Inside<'_, '_>,
    id: Option<u64>,
    row: Cells,
    rows: Rows,
    calling: &mut Calling<'_, B, R>,
) -> Result<Rows, Unsettled>
    requires there { HasRow command.now.change.now.table id calling.old.world.database.tables }
    ensures { ReadsOver command.now (λ x. spec.writes (setting_over command.now inside.now) id row
        rows x) result calling.old calling.new }
{
    let copied = copy_for(command.alloc, command.change.returning.as_slice(), &row)?;
    match put(command, id, row, calling) {
        Ok(()) => show(&*command, inside, copied.as_slice(), rows, calling),
        Err(why) => Err(why),
    }
}

/// A new row of these values, over the rows that stand.
pub(crate) fn add_row<B: Start, R: BodyRunner>(
    command: &Command<'_>,
    inside: &Inside<'_, '_>,
    parts: &[RExpr],
    frame: &[Lent<'_>],
    rows: Rows,
    calling: &mut Calling<'_, B, R>,
) -> Result<Rows, Unsettled>
    ensures { ReadsOver command.now (λ x. spec.adds (setting_over command.now inside.now) parts.now
        (rows_of frame.now) rows x) result calling.old calling.new }
{
    match read_row(command, inside, parts, frame, calling) {
        Ok(row) => write_row(command, inside, None, row, rows, calling),
        Err(why) => Err(why),
    }
}

// ---- UPDATE

// The row with these values in these columns, if it is there still. It is made of the one that was
// kept.
fn set_values<B: Start, R: BodyRunner>(
    command: &Command<'_>,
    inside: &Inside<'_, '_>,
    columns: &[usize],
    values: &[Value],
    entry: Entry,
    rows: Rows,
    calling: &mut Calling<'_, B, R>,
) -> Result<Rows, Unsettled>
    ensures { ReadsOver command.now (λ x. spec.sets (setting_over command.now inside.now)
        columns.now (entry_of entry) (Some values.now) rows x) result
        calling.old calling.new }
{
    if is_still(calling.journal(), command.change.table, &entry) {
        let Entry { id, row } = entry;
        let made = assign(command.alloc, columns, values, row)?;
        return write_row(command, inside, Some(id), made, rows, calling);
    }
    Err(Unsettled::Fails(State::TRIGGERED_DATA_CHANGE_VIOLATION))
}

// The same, if there are values.
fn set_row<B: Start, R: BodyRunner>(
    command: &Command<'_>,
    inside: &Inside<'_, '_>,
    columns: &[usize],
    values: Option<Cells>,
    entry: Entry,
    rows: Rows,
    calling: &mut Calling<'_, B, R>,
) -> Result<Rows, Unsettled>
    ensures { ReadsOver command.now (λ x. spec.sets (setting_over command.now inside.now)
        columns.now (entry_of entry) values rows x) result calling.old calling.new }
{
    match values {
        None => Ok(rows),
        Some(values) => {
            set_values(
                command,
                inside,
                columns,
                values.as_slice(),
                entry,
                rows,
                calling,
            )
        }
    }
}

// The values that SET gives, if WHERE passes over a row that was kept.
fn read_values<'x, B: Start, R: BodyRunner>(
    command: &Command<'x>,
    inside: &Inside<'_, '_>,
    parts: &[RExpr],
    condition: &Option<Boxed<RExpr>>,
    entry: &'x Entry,
    calling: &mut Calling<'_, B, R>,
) -> Result<Option<Cells>, Unsettled>
    ensures { ReadsOver command.now (λ x. spec.read_if (setting_over command.now inside.now)
        condition.now parts.now entry.now.row x) result calling.old calling.new }
{
    let frame = [
        Lent {
            cells: command.variables,
        },
        Lent { cells: &[] },
        Lent {
            cells: entry.row.as_slice(),
        },
    ];
    read_if(command, inside, condition, parts, &frame, calling)
}

/// UPDATE of a row.
pub(crate) fn update_row<B: Start, R: BodyRunner>(
    command: &Command<'_>,
    inside: &Inside<'_, '_>,
    columns: &[usize],
    parts: &[RExpr],
    condition: &Option<Boxed<RExpr>>,
    entry: Entry,
    rows: Rows,
    calling: &mut Calling<'_, B, R>,
) -> Result<Rows, Unsettled>
    ensures { ReadsOver command.now (λ x. spec.updates (setting_over command.now inside.now)
        columns.now parts.now condition.now (entry_of entry) rows x) result
        calling.old calling.new }
{
    match read_values(&*command, inside, parts, condition, &entry, calling) {
        Ok(values) => set_row(command, inside, columns, values, entry, rows, calling),
        Err(why) => Err(why),
    }
}

// ---- DELETE

// The row goes, if it is there still, and is shown.
fn take_row<B: Start, R: BodyRunner>(
    command: &Command<'_>,
    inside: &Inside<'_, '_>,
    entry: &Entry,
    rows: Rows,
    calling: &mut Calling<'_, B, R>,
) -> Result<Rows, Unsettled>
    ensures { let s = setting_over command.now inside.now in
        ReadsOver command.now (λ x. spec.if_still s (entry_of entry.now)
        (spec.takes s (entry_of entry.now) rows) x) result calling.old calling.new }
{
    if is_still(calling.journal(), command.change.table, entry) {
        calling.remove(command.change.table, entry.id)?;
        return show(command, inside, entry.row.as_slice(), rows, calling);
    }
    Err(Unsettled::Fails(State::TRIGGERED_DATA_CHANGE_VIOLATION))
}

// The same, if the row passed WHERE.
fn take_passed<B: Start, R: BodyRunner>(
    command: &Command<'_>,
    inside: &Inside<'_, '_>,
    passed: bool,
    entry: &Entry,
    rows: Rows,
    calling: &mut Calling<'_, B, R>,
) -> Result<Rows, Unsettled>
    ensures { let s = setting_over command.now inside.now in
        ReadsOver command.now (λ x. if passed then spec.if_still s (entry_of entry.now)
        (spec.takes s (entry_of entry.now) rows) x else got rows x) result
        calling.old calling.new }
{
    if passed {
        take_row(command, inside, entry, rows, calling)
    } else {
        Ok(rows)
    }
}

/// DELETE of a row.
pub(crate) fn delete_row<'x, B: Start, R: BodyRunner>(
    command: &Command<'x>,
    inside: &Inside<'_, '_>,
    condition: &Option<Boxed<RExpr>>,
    entry: &'x Entry,
    rows: Rows,
    calling: &mut Calling<'_, B, R>,
) -> Result<Rows, Unsettled>
    ensures { ReadsOver command.now (λ x. spec.deletes (setting_over command.now inside.now)
        condition.now (entry_of entry.now) rows x) result calling.old calling.new }
{
    let frame = [
        Lent {
            cells: command.variables,
        },
        Lent { cells: &[] },
        Lent {
            cells: entry.row.as_slice(),
        },
    ];
    match read_where(command, inside, condition, &frame, calling) {
        Ok(passed) => take_passed(command, inside, passed, entry, rows, calling),
        Err(why) => Err(why),
    }
}
