//! The rows of a journal, lent to queries. None is copied.

ghost use Rattle.std.specs.Prelude.{◌≡◌, ◌++◌, [], map, IfOk, IfSome, OnOk};
ghost use Rattle.std.specs.List.{cons_option};
ghost use Rattle.std.specs.Option.{option_copied};
ghost use Rattle.pl_journal.specs.ByKey.{row_found};
ghost use Rattle.pl_journal.specs.Rows.{tables_of};
ghost use Rattle.pl_query.specs.LeftOut.{LeavesOut};
ghost use Rattle.pl_tables.specs.Slots.{before, live};
ghost use Rattle.pl_value.specs.Frames.{rows_of};

use crate::Journal;
use crate::by_key::{Candidates, candidates_of};
use pl_base::{Cells, Name};
use pl_query::Tables;
use pl_resolved::RExpr;
use pl_tables::Slot;
use pl_undo::Store;
use pl_value::Lent;
use std::alloc::{AllocError, Global};

impl Tables for Journal {
    ghost table = { λ j name. tables_of j.now.tables name };

    fn read<'t>(&'t self, alloc: Global, name: Name) -> Result<Vec<Lent<'t>>, AllocError> {
        lend_table(alloc, &self.store, name)
    }

    fn read_for<'t, 'e, C>(
        &'t self,
        alloc: Global,
        name: Name,
        condition: &'e RExpr,
        around: &[Lent<'e>],
    ) -> Result<Option<Vec<Lent<'t>>>, AllocError> {
        lend_for::<C>(alloc, self, name, condition, around)
    }
}

// The rows of the table of this name.
fn lend_table<'s>(alloc: Global, store: &'s Store, name: Name) -> Result<Vec<Lent<'s>>, AllocError>
    ensures { IfOk result (λ lent. rows_of lent.items ≡ tables_of store.now.now.tables name) }
{
    match store.tables().table(name) {
        None => Ok(Vec::new(alloc)),
        Some(table) => lend_slots(alloc, table.slots()),
    }
}

fn lend_slots<'s>(alloc: Global, slots: &'s [Slot]) -> Result<Vec<Lent<'s>>, AllocError>
    ensures { IfOk result (λ lent. rows_of lent.items ≡ map (λ entry. entry.1) (live slots.now)) }
{
    let mut lent = Vec::new(alloc);
    for slot in slots {
        lend_slot(&mut lent, slot)?;
    }
    Ok(lent)
}

fn lend_slot<'s>(lent: &mut Vec<Lent<'s>>, slot: &'s Slot) -> Result<(), AllocError>
    ensures { OnOk result (rows_of lent.new.items
        ≡ rows_of lent.old.items ++ map (λ entry. entry.1) (before slot.now.id slot.now.row [])) }
{
    if let Some(row) = &slot.row {
        lent.push(Lent {
            cells: row.as_slice(),
        })?;
    }
    Ok(())
}

// The row of the table of this name that was found, if one was.
fn found_in(journal: &Journal, name: Name, found: Option<u64>) -> Option<&Cells>
    ensures { option_copied result ≡ row_found name found journal.now.now.tables }
{
    let id = found?;
    journal.tables().table(name)?.row(id)
}

fn lend_found<'s>(
    alloc: Global,
    journal: &'s Journal,
    name: Name,
    found: Option<u64>,
) -> Result<Vec<Lent<'s>>, AllocError>
    ensures { IfOk result (λ lent. rows_of lent.items
        ≡ cons_option (row_found name found journal.now.now.tables) []) }
{
    let mut lent = Vec::new(alloc);
    if let Some(row) = found_in(journal, name, found) {
        lent.push(Lent {
            cells: row.as_slice(),
        })?;
    }
    Ok(lent)
}

// The row of the key that a condition asks for, if it asks for one; it turns down the others.
fn lend_for<'s, 'e, C>(
    alloc: Global,
    journal: &'s Journal,
    name: Name,
    condition: &'e RExpr,
    around: &[Lent<'e>],
) -> Result<Option<Vec<Lent<'s>>>, AllocError>
    ensures { IfOk result (λ few. IfSome few (λ lent. LeavesOut C condition.now (rows_of around.now)
        (tables_of journal.now.now.tables name) (rows_of lent.items))) }
{
    journal.is_sound();
    match candidates_of(alloc, name, condition, around, journal)? {
        Candidates::All => Ok(None),
        Candidates::Only(found) => Ok(Some(lend_found(alloc, journal, name, found)?)),
    }
}
