//! The rows of a table as they are when a change of it begins, kept while routines may change them.

ghost use Rattle.std.specs.Prelude.{◌≡◌, ◌∷◌, ◌++◌, [], IfOk, OnOk};
ghost use Rattle.std.specs.Option.{option_copied};
ghost use Rattle.pl_altering.specs.Entries.{AreEnough, AreVisited, entries, entry_found};
ghost use Rattle.pl_querying.specs.pl_engine.Engines.{world};
ghost use Rattle.pl_tables.specs.Named.{row_named, rows_named};
ghost use Rattle.pl_tables.specs.Slots.{before, live};
ghost use Rattle.pl_value.specs.Frames.{rows_of};
ghost use Rattle.pl_world.specs.Changes as spec;

use pl_base::{Boxed, Cells, Name, Value};
use pl_keys::is_same;
use pl_querying::pl_engine::Engine;
use pl_resolved::RExpr;
use pl_tables::Slot;
use pl_targets::{RChange, RWhat};
use pl_value::Lent;
use pl_world::pl_change::{Candidates, candidates_for, copy_row};
use pl_world::pl_journal::Journal;
use std::alloc::{AllocError, Global};

/// A row of the table as it was when the change began.
#[derive(Drop)]
pub(crate) struct Entry {
    pub id: u64,
    pub row: Cells,
}

// A copy of a row.
fn keep_row(alloc: Global, id: u64, row: &Cells, kept: &mut Vec<Entry>) -> Result<(), AllocError>
    ensures { OnOk result (entries kept.new.items ≡ entries kept.old.items ++ (id, row.now) ∷ []) }
{
    let row = copy_row(alloc, row.as_slice())?;
    kept.push(Entry { id, row })?;
    Ok(())
}

// A copy of the row of a slot, if there is one.
fn keep_slot(alloc: Global, slot: &Slot, kept: &mut Vec<Entry>) -> Result<(), AllocError>
    ensures { OnOk result (entries kept.new.items
        ≡ entries kept.old.items ++ before slot.now.id slot.now.row []) }
{
    match &slot.row {
        None => Ok(()),
        Some(row) => keep_row(alloc, slot.id, row, kept),
    }
}

fn keep_slots(alloc: Global, slots: &[Slot]) -> Result<Vec<Entry>, AllocError>
    ensures { IfOk result (λ kept. entries kept.items ≡ live slots.now) }
{
    let mut kept = Vec::new(alloc);
    for slot in slots {
        keep_slot(alloc, slot, &mut kept)?;
    }
    Ok(kept)
}

// Copies of the rows of the table of this name, with their ids.
fn keep_rows(engine: &Engine, name: Name) -> Result<Vec<Entry>, AllocError>
    ensures { IfOk result (λ kept. entries kept.items
        ≡ rows_named name (world engine.now).database.tables) }
{
    let alloc = engine.alloc();
    match engine.journal().tables().table(name) {
        Some(table) => keep_slots(alloc, table.slots()),
        None => Ok(Vec::new(alloc)),
    }
}

// A copy of this row, if there is one.
fn keep_one(alloc: Global, id: u64, row: Option<&Cells>) -> Result<Vec<Entry>, AllocError>
    ensures { IfOk result (λ kept. entries kept.items ≡ before id (option_copied row.entry) []) }
{
    let mut kept = Vec::new(alloc);
    if let Some(row) = row {
        keep_row(alloc, id, row, &mut kept)?;
    }
    Ok(kept)
}

// A copy of the row that was found, if it is there.
fn keep_found(engine: &Engine, name: Name, found: Option<u64>) -> Result<Vec<Entry>, AllocError>
    ensures { IfOk result (λ kept. entries kept.items
        ≡ entry_found name found (world engine.now).database.tables) }
{
    let alloc = engine.alloc();
    match found {
        None => Ok(Vec::new(alloc)),
        Some(id) => keep_one(alloc, id, row_of(engine.journal(), name, id)),
    }
}

// Copies of the rows that a command with this WHERE has to visit, where these rows stand around.
fn keep_where<'a>(
    engine: &Engine,
    name: Name,
    condition: &'a Option<Boxed<RExpr>>,
    around: &[Lent<'a>],
) -> Result<Vec<Entry>, AllocError>
    ensures { IfOk result (λ kept. AreVisited name condition.now (rows_of around.now)
        (world engine.now).database.tables (entries kept.items)) }
{
    let journal = engine.journal();
    journal.is_sound();
    match candidates_for(engine.alloc(), name, condition, around, journal)? {
        Candidates::All => keep_rows(engine, name),
        Candidates::Only(found) => keep_found(engine, name, found),
    }
}

/// Copies of the rows that an UPDATE or a DELETE goes over: the one that WHERE asks for by the
/// columns of a key, or all rows of the table. An INSERT needs none.
pub(crate) fn rows_for(
    engine: &Engine,
    change: &RChange,
    variables: &[Value],
) -> Result<Vec<Entry>, AllocError>
    ensures { IfOk result (λ kept. AreEnough change.now (variables.now ∷ [] ∷ [])
        (world engine.now).database.tables (entries kept.items)) }
{
    let around = [Lent { cells: variables }, Lent { cells: &[] }];
    match &change.what {
        RWhat::Insert(_) => Ok(Vec::new(engine.alloc())),
        RWhat::Update { condition, .. } => keep_where(engine, change.table, condition, &around),
        RWhat::Delete { condition } => keep_where(engine, change.table, condition, &around),
    }
}

// The row of this id in the table of this name.
fn row_of(journal: &Journal, name: Name, id: u64) -> Option<&Cells>
    ensures { option_copied result ≡ row_named name id journal.now.now.tables }
{
    match journal.tables().table(name) {
        Some(table) => table.row(id),
        None => None,
    }
}

/// Whether a row that was kept is there still, with the same values.
pub(crate) fn is_still(journal: &Journal, name: Name, entry: &Entry) -> bool
    ensures { result ≡ spec.is_still (row_named name entry.now.id journal.now.now.tables)
        entry.now.row }
{
    match row_of(journal, name, entry.id) {
        Some(row) => is_same(row.as_slice(), entry.row.as_slice()),
        None => false,
    }
}
