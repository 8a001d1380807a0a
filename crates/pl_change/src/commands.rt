//! Whole commands.

ghost use Rattle.std.specs.Prelude.{◌≡◌, [], List, OnOk};
ghost use Rattle.pl_journal.specs.pl_catalog.declared.object.Object.{Object};
ghost use Rattle.pl_change.specs.Changes as spec;
ghost use Rattle.pl_change.specs.Changes.{progress};
ghost use Rattle.pl_change.specs.Running.{adds_from, does_from, inserts_from, reached, rows_over};
ghost use Rattle.pl_change.specs.Running.{setting_of};
ghost use Rattle.pl_journal.specs.Journal.{ChangesOnly};
ghost use Rattle.pl_inside.specs.pl_query.Rows.{in_turn};
ghost use Rattle.pl_value.specs.Answers.{Reads};
ghost use Rattle.pl_value.specs.Frames.{rows_of};

use crate::Command;
use crate::asking::asks;
use crate::at_start::copy_tables;
use crate::by_key::ids_for;
use crate::evaluation::{pop_row, push_row, stand, with_room};
use crate::rows::{add_row, delete_row, update_row};
use pl_base::{Boxed, Cells, List};
use pl_inside::pl_query::{Queries, Rows, Store, run as run_query};
use pl_inside::tables_read;
use pl_journal::Journal;
use pl_resolved::RExpr;
use pl_targets::{RChange, RRow, RRows, RWhat};
use pl_value::{Caller, Lent, NoQueries, Subqueries, Unsettled};
use std::alloc::Global;

// The rows of VALUES.
fn insert_values<'a, C: Caller, S: Subqueries<C>>(
    alloc: Global,
    command: &Command<'a>,
    list: &'a [RRow],
    sub: &S,
    journal: &mut Journal,
    caller: &mut C,
) -> Result<Rows, Unsettled>
    requires { S.can sub.now }
    ensures reads { (objects : List Object) → objects ≡ journal.old.now.objects
        → Reads (in_turn (spec.adds_values (setting_of C.calls (S.sub sub.now) objects command.now))
        list.now (progress journal.old.now.tables []) caller.old)
        (reached result journal.new.now.tables) caller.new }
    ensures only { ChangesOnly command.now.change.now.table journal.old journal.new }
{
    let mut rows = Rows::new(alloc);
    for row in list {
        match add_row(
            alloc,
            &*command,
            row.values.as_slice(),
            sub,
            &*command.around,
            journal,
            rows,
            caller,
        ) {
            Ok(more) => rows = more,
            Err(why) => return Err(why),
        }
    }
    Ok(rows)
}

// One row for a row that was found, which stands behind those around the command.
fn insert_one<'a, C: Caller, S: Subqueries<C>>(
    alloc: Global,
    command: &Command<'a>,
    values: &'a [RExpr],
    frame: &mut Vec<Lent<'a>>,
    found: &'a Cells,
    sub: &S,
    journal: &mut Journal,
    rows: Rows,
    caller: &mut C,
) -> Result<Rows, Unsettled>
    requires can { S.can sub.now }
    requires around { frame.old.items ≡ command.now.around.now }
    ensures around { OnOk result (frame.new.items ≡ command.now.around.now) }
    ensures reads { (objects : List Object) → objects ≡ journal.old.now.objects
        → Reads (spec.adds_found (setting_of C.calls (S.sub sub.now) objects command.now) values.now
        found.now (progress journal.old.now.tables rows) caller.old)
        (reached result journal.new.now.tables) caller.new }
    ensures only { ChangesOnly command.now.change.now.table journal.old journal.new }
{
    push_row(frame, found.as_slice())?;
    let added = add_row(
        alloc,
        &*command,
        values,
        sub,
        frame.as_slice(),
        journal,
        rows,
        caller,
    );
    pop_row(frame);
    added
}

// One row for each row that was found.
fn insert_found<'a, C: Caller, S: Subqueries<C>>(
    alloc: Global,
    command: &Command<'a>,
    values: &'a [RExpr],
    found: &'a [Cells],
    sub: &S,
    journal: &mut Journal,
    caller: &mut C,
) -> Result<Rows, Unsettled>
    requires { S.can sub.now }
    ensures reads { (objects : List Object) → objects ≡ journal.old.now.objects
        → Reads (in_turn (spec.adds_found (setting_of C.calls (S.sub sub.now) objects command.now)
        values.now) found.now (progress journal.old.now.tables []) caller.old)
        (reached result journal.new.now.tables) caller.new }
    ensures only { ChangesOnly command.now.change.now.table journal.old journal.new }
{
    let mut frame = with_room(alloc, &*command.around)?;
    let mut rows = Rows::new(alloc);
    for row in found {
        match insert_one(
            alloc, &*command, values, &mut frame, row, sub, journal, rows, caller,
        ) {
            Ok(more) => rows = more,
            Err(why) => return Err(why),
        }
    }
    Ok(rows)
}

// The rows that a query gives.
fn insert_query<'a, C: Caller, S: Subqueries<C>>(
    alloc: Global,
    command: &Command<'a>,
    outer: &[Lent<'a>],
    query: usize,
    values: &'a [RExpr],
    sub: &S,
    journal: &mut Journal,
    caller: &mut C,
) -> Result<Rows, Unsettled>
    requires { S.can sub.now }
    ensures reads { (objects : List Object) → objects ≡ journal.old.now.objects
        → Reads (adds_from (rows_over C.calls command.now journal.old.now)
        (setting_of C.calls (S.sub sub.now) objects command.now) (rows_of outer.now) query
        values.now (progress journal.old.now.tables []) caller.old)
        (reached result journal.new.now.tables) caller.new }
    ensures only { ChangesOnly command.now.change.now.table journal.old journal.new }
{
    let queries = command.change.queries.as_slice();
    match run_query(alloc, queries, &*journal, query, outer, caller) {
        Ok(found) => insert_found(
            alloc,
            &*command,
            &*values,
            found.as_slice(),
            sub,
            journal,
            caller,
        ),
        Err(why) => Err(why),
    }
}

// UPDATE of the rows of these ids.
fn update_each<'a, C: Caller, S: Subqueries<C>>(
    alloc: Global,
    command: &Command<'a>,
    columns: &[usize],
    values: &'a [RExpr],
    condition: &'a Option<Boxed<RExpr>>,
    ids: &[u64],
    sub: &S,
    journal: &mut Journal,
    caller: &mut C,
) -> Result<Rows, Unsettled>
    requires { S.can sub.now }
    ensures reads { (objects : List Object) → objects ≡ journal.old.now.objects
        → Reads (in_turn (spec.updates (setting_of C.calls (S.sub sub.now) objects command.now)
        columns.now values.now condition.now) ids.now (progress journal.old.now.tables [])
        caller.old)
        (reached result journal.new.now.tables) caller.new }
    ensures only { ChangesOnly command.now.change.now.table journal.old journal.new }
{
    let mut rows = Rows::new(alloc);
    for id in ids {
        match update_row(
            alloc, &*command, columns, values, condition, *id, sub, journal, rows, caller,
        ) {
            Ok(more) => rows = more,
            Err(why) => return Err(why),
        }
    }
    Ok(rows)
}

// DELETE of the rows of these ids.
fn delete_each<'a, C: Caller, S: Subqueries<C>>(
    alloc: Global,
    command: &Command<'a>,
    condition: &'a Option<Boxed<RExpr>>,
    ids: &[u64],
    sub: &S,
    journal: &mut Journal,
    caller: &mut C,
) -> Result<Rows, Unsettled>
    requires { S.can sub.now }
    ensures reads { (objects : List Object) → objects ≡ journal.old.now.objects
        → Reads (in_turn (spec.deletes (setting_of C.calls (S.sub sub.now) objects command.now)
        condition.now) ids.now (progress journal.old.now.tables []) caller.old)
        (reached result journal.new.now.tables) caller.new }
    ensures only { ChangesOnly command.now.change.now.table journal.old journal.new }
{
    let mut rows = Rows::new(alloc);
    for id in ids {
        match delete_row(alloc, &*command, condition, *id, sub, journal, rows, caller) {
            Ok(more) => rows = more,
            Err(why) => return Err(why),
        }
    }
    Ok(rows)
}

// INSERT
fn insert<'a, C: Caller, S: Subqueries<C>>(
    alloc: Global,
    command: &Command<'a>,
    outer: &[Lent<'a>],
    source: &'a RRows,
    sub: &S,
    journal: &mut Journal,
    caller: &mut C,
) -> Result<Rows, Unsettled>
    requires { S.can sub.now }
    ensures reads { (objects : List Object) → objects ≡ journal.old.now.objects
        → Reads (inserts_from (rows_over C.calls command.now journal.old.now)
        (setting_of C.calls (S.sub sub.now) objects command.now) (rows_of outer.now) source.now
        (progress journal.old.now.tables []) caller.old)
        (reached result journal.new.now.tables) caller.new }
    ensures only { ChangesOnly command.now.change.now.table journal.old journal.new }
{
    match source {
        RRows::Values(list) => {
            insert_values(alloc, &*command, list.as_slice(), sub, journal, caller)
        }
        RRows::Query { query, values } => insert_query(
            alloc,
            &*command,
            outer,
            *query,
            values.as_slice(),
            sub,
            journal,
            caller,
        ),
    }
}

// UPDATE
fn update<'a, C: Caller, S: Subqueries<C>>(
    alloc: Global,
    command: &Command<'a>,
    columns: &List<usize>,
    values: &'a List<RExpr>,
    condition: &'a Option<Boxed<RExpr>>,
    sub: &S,
    journal: &mut Journal,
    caller: &mut C,
) -> Result<Rows, Unsettled>
    requires { S.can sub.now }
    ensures reads { (objects : List Object) → objects ≡ journal.old.now.objects
        → Reads (spec.updates_all (setting_of C.calls (S.sub sub.now) objects command.now) columns.now
        values.now condition.now (progress journal.old.now.tables []) caller.old)
        (reached result journal.new.now.tables) caller.new }
    ensures only { ChangesOnly command.now.change.now.table journal.old journal.new }
{
    journal.is_sound();
    let ids = ids_for(alloc, &*command, condition, &*journal)?;
    update_each(
        alloc,
        &*command,
        columns.as_slice(),
        values.as_slice(),
        condition,
        ids.as_slice(),
        sub,
        journal,
        caller,
    )
}

// DELETE
fn delete<'a, C: Caller, S: Subqueries<C>>(
    alloc: Global,
    command: &Command<'a>,
    condition: &'a Option<Boxed<RExpr>>,
    sub: &S,
    journal: &mut Journal,
    caller: &mut C,
) -> Result<Rows, Unsettled>
    requires { S.can sub.now }
    ensures reads { (objects : List Object) → objects ≡ journal.old.now.objects
        → Reads (spec.deletes_all (setting_of C.calls (S.sub sub.now) objects command.now)
        condition.now (progress journal.old.now.tables []) caller.old)
        (reached result journal.new.now.tables) caller.new }
    ensures only { ChangesOnly command.now.change.now.table journal.old journal.new }
{
    journal.is_sound();
    let ids = ids_for(alloc, &*command, condition, &*journal)?;
    delete_each(
        alloc,
        &*command,
        condition,
        ids.as_slice(),
        sub,
        journal,
        caller,
    )
}

// The command, once the rows that stand around are there.
fn run<'a, C: Caller, S: Subqueries<C>>(
    alloc: Global,
    command: &Command<'a>,
    outer: &[Lent<'a>],
    sub: &S,
    journal: &mut Journal,
    caller: &mut C,
) -> Result<Rows, Unsettled>
    requires { S.can sub.now }
    ensures reads { (objects : List Object) → objects ≡ journal.old.now.objects
        → Reads (does_from (rows_over C.calls command.now journal.old.now)
        (setting_of C.calls (S.sub sub.now) objects command.now) (rows_of outer.now)
        command.now.change.now.what (progress journal.old.now.tables []) caller.old)
        (reached result journal.new.now.tables) caller.new }
    ensures only { ChangesOnly command.now.change.now.table journal.old journal.new }
{
    match &command.change.what {
        RWhat::Insert(source) => insert(alloc, &*command, outer, source, sub, journal, caller),
        RWhat::Update {
            columns,
            values,
            condition,
        } => update(
            alloc, &*command, columns, values, condition, sub, journal, caller,
        ),
        RWhat::Delete { condition } => { delete(alloc, &*command, condition, sub, journal, caller) }
    }
}

// The same, with the rows of RETURNING as a list.
fn answer<'a, C: Caller, S: Subqueries<C>>(
    alloc: Global,
    command: &Command<'a>,
    outer: &[Lent<'a>],
    sub: &S,
    journal: &mut Journal,
    caller: &mut C,
) -> Result<List<Cells>, Unsettled>
    requires { S.can sub.now }
    ensures reads { (objects : List Object) → objects ≡ journal.old.now.objects
        → Reads (does_from (rows_over C.calls command.now journal.old.now)
        (setting_of C.calls (S.sub sub.now) objects command.now) (rows_of outer.now)
        command.now.change.now.what (progress journal.old.now.tables []) caller.old)
        (reached result journal.new.now.tables) caller.new }
    ensures only { ChangesOnly command.now.change.now.table journal.old journal.new }
{
    match run(alloc, &*command, outer, sub, journal, caller) {
        Ok(rows) => Ok(List::from_vec(rows.into_vec())),
        Err(why) => Err(why),
    }
}

// The same with queries inside, which see the tables as they are when the command begins. Each
// table that they read is copied and read once.
fn answer_queries<'a, C: Caller>(
    alloc: Global,
    command: &Command<'a>,
    outer: &[Lent<'a>],
    journal: &mut Journal,
    caller: &mut C,
) -> Result<List<Cells>, Unsettled>
    ensures reads { (objects : List Object) → objects ≡ journal.old.now.objects
        → Reads (spec.does (setting_of C.calls (rows_over C.calls command.now journal.old.now)
        objects command.now) (rows_of outer.now) command.now.change.now.what
        (progress journal.old.now.tables []) caller.old)
        (reached result journal.new.now.tables) caller.new }
    ensures only { ChangesOnly command.now.change.now.table journal.old journal.new }
{
    let queries = command.change.queries.as_slice();
    let names = tables_read::<C>(alloc, queries)?;
    let copies = copy_tables(alloc, &*journal, names.as_slice())?;
    let store = Store::new(alloc, &copies, queries, command.around.len())?;
    let inside = Queries {
        list: queries,
        tables: &store,
    };
    answer(alloc, &*command, outer, &inside, journal, caller)
}

/// Runs a command over the rows around it, and answers what RETURNING shows of each row that was
/// written, an empty row where there is no RETURNING: so the command's count is their number.
/// Its failures are those of its expressions and queries, and of each row those of the journal's
/// `insert` and `replace`. After a failure the table may hold some of the changes: go back to the
/// last commit. All else stays in any case.
pub fn change<C: Caller>(
    alloc: Global,
    change: &RChange,
    outer: &[Lent<'_>],
    journal: &mut Journal,
    caller: &mut C,
) -> Result<List<Cells>, Unsettled>
    ensures reads { Reads (spec.changed C.calls change.now (rows_of outer.now) journal.old.now
        caller.old)
        (reached result journal.new.now.tables) caller.new }
    ensures only { ChangesOnly change.now.table journal.old journal.new }
{
    let around = stand(alloc, &*outer, &[])?;
    let command = Command {
        change: &*change,
        around: around.as_slice(),
    };
    if asks::<C>(&*change) {
        answer_queries(alloc, &command, &*outer, journal, caller)
    } else {
        answer(alloc, &command, &*outer, &NoQueries, journal, caller)
    }
}
