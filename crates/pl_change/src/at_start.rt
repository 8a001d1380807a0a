//! Tables as they are when a command begins.

ghost use Rattle.std.specs.Prelude.{◌≡◌, [], ◌++◌, map, IfOk, OnOk};
ghost use Rattle.pl_change.specs.Changes as spec;
ghost use Rattle.pl_change.specs.Running.{copied, copy_of};
ghost use Rattle.pl_inside.specs.Agreement.{AgreeOn};
ghost use Rattle.pl_journal.specs.Rows.{tables_of};
ghost use Rattle.pl_tables.specs.Slots.{before, live};
ghost use Rattle.pl_value.specs.Frames.{rows_of};

use pl_base::{Cells, List, Name, Value, copy_each};
use pl_inside::pl_query::Tables;
use pl_journal::Journal;
use pl_resolved::RExpr;
use pl_tables::Slot;
use pl_value::Lent;
use std::alloc::{AllocError, Global};

/// The rows of a table as they were when a command began.
#[derive(Drop)]
pub struct Copied {
    pub name: Name,
    pub rows: List<Cells>,
}

/// The tables that the queries inside a command read, as they were when it began.
#[derive(Drop)]
pub struct Copies {
    pub list: Vec<Copied>,
}

impl Tables for Copies {
    ghost table = { λ c. copied c.list.items };

    fn read<'t>(&'t self, alloc: Global, name: Name) -> Result<Vec<Lent<'t>>, AllocError> {
        lend_rows(alloc, rows_in(self.list.as_slice(), name))
    }

    // A copy has no keys.
    fn read_for<'t, 'e, C>(
        &'t self,
        _: Global,
        _: Name,
        _: &'e RExpr,
        _: &[Lent<'e>],
    ) -> Result<Option<Vec<Lent<'t>>>, AllocError> {
        Ok(None)
    }
}

// The rows of the table of this name; none where it isn't copied.
fn rows_in(list: &[Copied], name: Name) -> &[Cells]
    ensures { result.now ≡ copied list.now name }
{
    for table in list {
        if table.name == name {
            return table.rows.as_slice();
        }
    }
    &[]
}

fn lend_rows<'s>(alloc: Global, rows: &'s [Cells]) -> Result<Vec<Lent<'s>>, AllocError>
    ensures { IfOk result (λ lent. rows_of lent.items ≡ rows.now) }
{
    let mut lent = Vec::new(alloc);
    for row in rows {
        lent.push(Lent {
            cells: row.as_slice(),
        })?;
    }
    Ok(lent)
}

/// Copies of the tables of these names as they are now. A name that no table has gets no rows.
pub fn copy_tables(alloc: Global, journal: &Journal, names: &[Name]) -> Result<Copies, AllocError>
    ensures { IfOk result (λ copies. AgreeOn names.now (copied copies.list.items)
        (tables_of journal.now.now.tables)) }
{
    let mut list = Vec::new(alloc);
    for name in names {
        list.push(copy_table(alloc, journal, *name)?)?;
    }
    Ok(Copies { list })
}

// A copy of the table of this name.
fn copy_table(alloc: Global, journal: &Journal, name: Name) -> Result<Copied, AllocError>
    ensures { IfOk result (λ table. table ≡ copy_of journal.now.now.tables name) }
{
    let lent = journal.read(alloc, name)?;
    let rows = copy_rows(alloc, lent.as_slice())?;
    Ok(Copied { name, rows })
}

fn copy_rows(alloc: Global, rows: &[Lent<'_>]) -> Result<List<Cells>, AllocError>
    ensures { IfOk result (λ copied. copied ≡ rows_of rows.now) }
{
    let mut copied = List::new(alloc);
    for row in rows {
        copied.push(copy_row(alloc, row.cells)?)?;
    }
    Ok(copied)
}

/// A copy of the row.
pub fn copy_row(alloc: Global, row: &[Value]) -> Result<Cells, AllocError>
    ensures { IfOk result (λ copied. copied ≡ row.now) }
{
    copy_each(
        alloc,
        row,
        |value: &Value| -> Result<Value, AllocError>
            ensures { IfOk result (λ copied. copied ≡ value.now) }
        { value.copy(alloc) },
    )
}

/// The ids of the rows of the table of this name.
pub(crate) fn ids_of(alloc: Global, journal: &Journal, name: Name) -> Result<Vec<u64>, AllocError>
    ensures { IfOk result (λ made. made.items ≡ spec.ids name journal.now.now.tables) }
{
    match journal.tables().table(name) {
        None => Ok(Vec::new(alloc)),
        Some(table) => ids_in(alloc, table.slots()),
    }
}

fn ids_in(alloc: Global, slots: &[Slot]) -> Result<Vec<u64>, AllocError>
    ensures { IfOk result (λ made. made.items ≡ map (λ entry. entry.0) (live slots.now)) }
{
    let mut ids = Vec::new(alloc);
    for slot in slots {
        add_id(&mut ids, slot)?;
    }
    Ok(ids)
}

fn add_id(ids: &mut Vec<u64>, slot: &Slot) -> Result<(), AllocError>
    ensures { OnOk result (ids.new.items
        ≡ ids.old.items ++ map (λ entry. entry.0) (before slot.now.id slot.now.row [])) }
{
    if slot.row.is_some() {
        ids.push(slot.id)?;
    }
    Ok(())
}
