//! Rows that are written, each with its operation in the payload: the rules of the row by itself,
//! then room and its keys.

ghost use Rattle.std.specs.Prelude.{◌≡◌, None, Some, IsSome, OnOk, OnErr, option_map, take};
ghost use Rattle.pl_catalog.specs.Objects.{table_named, tables_in};
ghost use Rattle.pl_journal.specs.Journal.{ChangesOnly, IsKept, Leads};
ghost use Rattle.pl_journal.specs.Steps.{free_id, refusal_by, refusal_of, Continues, Refuses};
ghost use Rattle.pl_journal.specs.Writing.{state_of, written};
ghost use Rattle.pl_rules.specs.Rules.{first_failure};
ghost use Rattle.pl_tables.specs.Named.{content_named, row_named};
ghost use Rattle.pl_tables.specs.Rows.{removed};
ghost use Rattle.pl_undo.specs.Database.{on_rows};

use crate::spelling::{spell_put, spell_remove};
use pl_base::{Cells, Name, State};
use pl_catalog::TableDef;
use pl_rules::{RuleFail, check_row};
use pl_tables::TableFail;
use pl_undo::Store;
use pl_value::Unsettled;
use std::alloc::{AllocError, Global};

fn judge_by(alloc: Global, table: &TableDef, row: &Cells) -> Result<(), Unsettled>
    ensures { Refuses (option_map state_of (first_failure table.now row.now)) result }
{
    match check_row(alloc, table, row) {
        Ok(()) => Ok(()),
        Err(RuleFail::Broken { state, .. }) => Err(Unsettled::Fails(state)),
        Err(RuleFail::Evaluating(state)) => Err(Unsettled::Fails(state)),
        Err(RuleFail::Unfit) => Err(Unsettled::Fails(State::PROGRAM_LIMIT_EXCEEDED)),
        Err(RuleFail::Memory) => Err(Unsettled::Memory),
    }
}

/// Whether the row keeps, by itself, the rules of the table of this name.
pub(crate) fn judge(alloc: Global, store: &Store, name: Name, row: &Cells) -> Result<(), Unsettled>
    ensures { Refuses (refusal_by (table_named name (tables_in store.now.now.objects)) row.now)
        result }
{
    match store.catalog().table(name) {
        None => Err(Unsettled::Fails(State::UNDEFINED_TABLE)),
        Some(table) => judge_by(alloc, table, row),
    }
}

fn refusal(fail: TableFail) -> Unsettled
    ensures { result ≡ refusal_of fail }
{
    match fail {
        TableFail::Full => Unsettled::Fails(State::PROGRAM_LIMIT_EXCEEDED),
        TableFail::Taken(_) => Unsettled::Fails(State::UNIQUE_VIOLATION),
        TableFail::Memory => Unsettled::Memory,
    }
}

// Why the row isn't written, whose operation goes: the payload has this size again.
fn refuse(payload: &mut Vec<u8>, size: usize, fail: TableFail) -> Unsettled
    ensures items { payload.new.items ≡ take size payload.old.items }
    ensures why { result ≡ refusal_of fail }
{
    payload.truncate(size);
    refusal(fail)
}

// The id that a new row of the table of this name gets. None where the table is full.
fn next_id(store: &Store, name: Name) -> Option<u64>
    ensures { result ≡ free_id (content_named name store.now.now.tables) }
{
    let table = store.tables().table(name)?;
    if table.is_full() {
        return None;
    }
    Some(table.next_id())
}

// Adds a row that keeps its rules, under the id that a new row gets.
fn add_row(
    store: &mut Store,
    spelling: &mut Vec<u8>,
    payload: &mut Vec<u8>,
    name: Name,
    id: u64,
    row: Cells,
) -> Result<(), Unsettled>
    requires kept { IsKept payload.old.items store.old }
    requires keeps { refusal_by (table_named name (tables_in store.old.now.objects)) row ≡ None }
    requires free { free_id (content_named name store.old.now.tables) ≡ Some id }
    ensures kept { Continues payload.old.items payload.new.items store.old store.new }
    ensures leads { Leads (written store.old.now.objects name None row store.old.now.tables) result
        store.new.now.tables }
    ensures only { ChangesOnly name store.old store.new }
    ensures err { OnErr result (store.new.now ≡ store.old.now) }
{
    let size = payload.len();
    spell_put(spelling, payload, &name, id, row.as_slice())?;
    match store.insert(name, row) {
        Ok(_) => Ok(()),
        Err(fail) => Err(refuse(payload, size, fail)),
    }
}

/// Adds a row to the table of this name.
pub(crate) fn insert_row(
    alloc: Global,
    store: &mut Store,
    spelling: &mut Vec<u8>,
    payload: &mut Vec<u8>,
    name: Name,
    row: Cells,
) -> Result<(), Unsettled>
    requires kept { IsKept payload.old.items store.old }
    ensures kept { Continues payload.old.items payload.new.items store.old store.new }
    ensures leads { Leads (written store.old.now.objects name None row store.old.now.tables) result
        store.new.now.tables }
    ensures only { ChangesOnly name store.old store.new }
    ensures err { OnErr result (store.new.now ≡ store.old.now) }
{
    judge(alloc, &*store, name, &row)?;
    match next_id(&*store, name) {
        Some(id) => add_row(store, spelling, payload, name, id, row),
        None => Err(Unsettled::Fails(State::PROGRAM_LIMIT_EXCEEDED)),
    }
}

// Puts a row that keeps its rules in the place of the one of this id.
fn change_row(
    store: &mut Store,
    spelling: &mut Vec<u8>,
    payload: &mut Vec<u8>,
    name: Name,
    id: u64,
    row: Cells,
) -> Result<(), Unsettled>
    requires kept { IsKept payload.old.items store.old }
    requires keeps { refusal_by (table_named name (tables_in store.old.now.objects)) row ≡ None }
    requires there { IsSome (row_named name id store.old.now.tables) }
    ensures kept { Continues payload.old.items payload.new.items store.old store.new }
    ensures leads { Leads (written store.old.now.objects name (Some id) row store.old.now.tables)
        result store.new.now.tables }
    ensures only { ChangesOnly name store.old store.new }
    ensures err { OnErr result (store.new.now ≡ store.old.now) }
{
    let size = payload.len();
    spell_put(spelling, payload, &name, id, row.as_slice())?;
    match store.replace(name, id, row) {
        Ok(()) => Ok(()),
        Err(fail) => Err(refuse(payload, size, fail)),
    }
}

/// Puts the row in the place of the one of this id, in the table of this name.
pub(crate) fn replace_row(
    alloc: Global,
    store: &mut Store,
    spelling: &mut Vec<u8>,
    payload: &mut Vec<u8>,
    name: Name,
    id: u64,
    row: Cells,
) -> Result<(), Unsettled>
    requires kept { IsKept payload.old.items store.old }
    requires there { IsSome (row_named name id store.old.now.tables) }
    ensures kept { Continues payload.old.items payload.new.items store.old store.new }
    ensures leads { Leads (written store.old.now.objects name (Some id) row store.old.now.tables)
        result store.new.now.tables }
    ensures only { ChangesOnly name store.old store.new }
    ensures err { OnErr result (store.new.now ≡ store.old.now) }
{
    judge(alloc, &*store, name, &row)?;
    change_row(store, spelling, payload, name, id, row)
}

/// Takes the row of this id out of the table of this name.
pub(crate) fn remove_row(
    store: &mut Store,
    spelling: &mut Vec<u8>,
    payload: &mut Vec<u8>,
    name: Name,
    id: u64,
) -> Result<(), AllocError>
    requires kept { IsKept payload.old.items store.old }
    requires there { IsSome (row_named name id store.old.now.tables) }
    ensures kept { Continues payload.old.items payload.new.items store.old store.new }
    ensures ok { OnOk result (store.new.now ≡ on_rows name (removed id) store.old.now) }
    ensures only { ChangesOnly name store.old store.new }
    ensures err { OnErr result (store.new.now ≡ store.old.now) }
{
    let len = payload.len();
    spell_remove(spelling, payload, &name, id)?;
    match store.remove(name, id) {
        Ok(()) => Ok(()),
        Err(fail) => {
            payload.truncate(len);
            Err(fail)
        }
    }
}
