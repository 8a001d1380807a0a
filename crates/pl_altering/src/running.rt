//! What a change does to its rows, one after another.

ghost use Rattle.std.specs.Prelude.{◌∷◌, []};
ghost use Rattle.pl_altering.specs.Entries.{entries};
ghost use Rattle.pl_altering.specs.Settings.{ReadsOver, setting_over};
ghost use Rattle.pl_query.specs.Rows.{in_turn};
ghost use Rattle.pl_value.specs.Reading.{then_read};
ghost use Rattle.pl_world.specs.Changes as spec;

use crate::command::{Command, Inside};
use crate::keeping::Entry;
use crate::rows::{add_row, delete_row, update_row};
use pl_base::{Boxed, Cells, List};
use pl_query::Rows;
use pl_querying::pl_calling::{Calling, Start};
use pl_querying::pl_engine::BodyRunner;
use pl_resolved::RExpr;
use pl_targets::{RRow, RRows, RWhat};
use pl_value::{Lent, Subqueries, Unsettled};

// ---- INSERT

// The rows of VALUES.
fn insert_values<B: Start, R: BodyRunner>(
    command: &Command<'_>,
    inside: &Inside<'_, '_>,
    list: &[RRow],
    calling: &mut Calling<'_, B, R>,
) -> Result<Rows, Unsettled>
    ensures { ReadsOver command.now (λ x. in_turn (spec.adds_values (setting_over command.now
        inside.now)) list.now [] x) result calling.old calling.new }
{
    let frame = [
        Lent {
            cells: command.variables,
        },
        Lent { cells: &[] },
    ];
    let mut rows = Rows::new(command.alloc);
    for row in list {
        let values = row.values.as_slice();
        match add_row(command, inside, values, &frame, rows, calling) {
            Ok(more) => rows = more,
            Err(why) => return Err(why),
        }
    }
    Ok(rows)
}

// A row for one that a query found.
fn add_found<'x, B: Start, R: BodyRunner>(
    command: &Command<'x>,
    inside: &Inside<'_, '_>,
    parts: &[RExpr],
    found: &'x Cells,
    rows: Rows,
    calling: &mut Calling<'_, B, R>,
) -> Result<Rows, Unsettled>
    ensures { ReadsOver command.now (λ x. spec.adds_found (setting_over command.now inside.now)
        parts.now found.now rows x) result calling.old calling.new }
{
    let frame = [
        Lent {
            cells: command.variables,
        },
        Lent { cells: &[] },
        Lent {
            cells: found.as_slice(),
        },
    ];
    add_row(command, inside, parts, &frame, rows, calling)
}

// A row for each row that a query found.
fn insert_found<B: Start, R: BodyRunner>(
    command: &Command<'_>,
    inside: &Inside<'_, '_>,
    parts: &[RExpr],
    found: &[Cells],
    calling: &mut Calling<'_, B, R>,
) -> Result<Rows, Unsettled>
    ensures { ReadsOver command.now (λ x. in_turn (spec.adds_found (setting_over command.now
        inside.now) parts.now) found.now [] x) result calling.old calling.new }
{
    let mut rows = Rows::new(command.alloc);
    for row in found {
        match add_found(&*command, inside, parts, row, rows, calling) {
            Ok(more) => rows = more,
            Err(why) => return Err(why),
        }
    }
    Ok(rows)
}

// The rows of a query, over the variables alone.
fn find_rows<B: Start, R: BodyRunner>(
    command: &Command<'_>,
    inside: &Inside<'_, '_>,
    query: usize,
    calling: &mut Calling<'_, B, R>,
) -> Result<List<Cells>, Unsettled>
    ensures { let s = setting_over command.now inside.now in
        ReadsOver command.now (λ x. s.inner query (command.now.variables.now ∷ []) x) result
        calling.old calling.new }
{
    let frame = [Lent {
        cells: command.variables,
    }];
    inside.rows(command.alloc, query, &frame, calling)
}

// The rows that a query gives. It is read whole.
fn insert_query<B: Start, R: BodyRunner>(
    command: &Command<'_>,
    inside: &Inside<'_, '_>,
    query: usize,
    parts: &[RExpr],
    calling: &mut Calling<'_, B, R>,
) -> Result<Rows, Unsettled>
    ensures { let s = setting_over command.now inside.now in
        ReadsOver command.now (λ x. then_read (s.inner query (command.now.variables.now ∷ []) x)
        (λ found x. in_turn (spec.adds_found s parts.now) found [] x)) result
        calling.old calling.new }
{
    match find_rows(command, inside, query, calling) {
        Ok(found) => insert_found(command, inside, parts, found.as_slice(), calling),
        Err(why) => Err(why),
    }
}

fn insert<B: Start, R: BodyRunner>(
    command: &Command<'_>,
    inside: &Inside<'_, '_>,
    source: &RRows,
    calling: &mut Calling<'_, B, R>,
) -> Result<Rows, Unsettled>
    ensures { ReadsOver command.now (λ x. spec.inserts (setting_over command.now inside.now)
        (command.now.variables.now ∷ []) source.now x) result calling.old calling.new }
{
    match source {
        RRows::Values(list) => insert_values(command, inside, list.as_slice(), calling),
        RRows::Query { query, values } => {
            insert_query(command, inside, *query, values.as_slice(), calling)
        }
    }
}

// ---- UPDATE and DELETE

fn update_each<B: Start, R: BodyRunner>(
    command: &Command<'_>,
    inside: &Inside<'_, '_>,
    columns: &[usize],
    parts: &[RExpr],
    condition: &Option<Boxed<RExpr>>,
    kept: Vec<Entry>,
    calling: &mut Calling<'_, B, R>,
) -> Result<Rows, Unsettled>
    ensures { ReadsOver command.now (λ x. in_turn (spec.updates (setting_over command.now
        inside.now) columns.now parts.now condition.now) (entries kept.items) [] x) result
        calling.old calling.new }
{
    let mut rows = Rows::new(command.alloc);
    for entry in kept {
        match update_row(
            &*command, inside, columns, parts, condition, entry, rows, calling,
        ) {
            Ok(more) => rows = more,
            Err(why) => return Err(why),
        }
    }
    Ok(rows)
}

fn delete_each<B: Start, R: BodyRunner>(
    command: &Command<'_>,
    inside: &Inside<'_, '_>,
    condition: &Option<Boxed<RExpr>>,
    kept: &[Entry],
    calling: &mut Calling<'_, B, R>,
) -> Result<Rows, Unsettled>
    ensures { ReadsOver command.now (λ x. in_turn (spec.deletes (setting_over command.now
        inside.now) condition.now) (entries kept.now) [] x) result calling.old calling.new }
{
    let mut rows = Rows::new(command.alloc);
    for entry in kept {
        match delete_row(&*command, inside, condition, entry, rows, calling) {
            Ok(more) => rows = more,
            Err(why) => return Err(why),
        }
    }
    Ok(rows)
}

// ---- whole changes

fn run_each<B: Start, R: BodyRunner>(
    command: &Command<'_>,
    inside: &Inside<'_, '_>,
    kept: Vec<Entry>,
    calling: &mut Calling<'_, B, R>,
) -> Result<Rows, Unsettled>
    ensures { ReadsOver command.now (λ x. spec.does (setting_over command.now inside.now)
        (command.now.variables.now ∷ []) (entries kept.items) command.now.change.now.what x) result
        calling.old calling.new }
{
    match &command.change.what {
        RWhat::Insert(source) => insert(command, inside, source, calling),
        RWhat::Update {
            columns,
            values,
            condition,
        } => update_each(
            command,
            inside,
            columns.as_slice(),
            values.as_slice(),
            condition,
            kept,
            calling,
        ),
        RWhat::Delete { condition } => {
            delete_each(command, inside, condition, kept.as_slice(), calling)
        }
    }
}

/// What the change does, where an UPDATE or a DELETE goes over the rows that are kept: a row of
/// RETURNING for each row that was written or deleted.
pub(crate) fn run<B: Start, R: BodyRunner>(
    command: &Command<'_>,
    inside: &Inside<'_, '_>,
    kept: Vec<Entry>,
    calling: &mut Calling<'_, B, R>,
) -> Result<List<Cells>, Unsettled>
    ensures { ReadsOver command.now (λ x. spec.does (setting_over command.now inside.now)
        (command.now.variables.now ∷ []) (entries kept.items) command.now.change.now.what x) result
        calling.old calling.new }
{
    match run_each(command, inside, kept, calling) {
        Ok(rows) => Ok(List::from_vec(rows.into_vec())),
        Err(why) => Err(why),
    }
}
