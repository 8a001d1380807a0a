//! Rows that come to places by their ids, as a stored operation says.

ghost use Rattle.std.specs.Prelude.{◌≡◌, ◌≢◌, ◌≤◌, ◌<◌, ◌^◌, ◌↔◌, [], None, Err, false};
ghost use Rattle.std.specs.Prelude.{length, map, option_copied, IfOk, OnOk, OnErr};
ghost use Rattle.std.specs.List.{AllByRecursion};
ghost use Rattle.pl_unique.specs.RowKeys.{changed_key, columns_of, IsNew};
ghost use Rattle.pl_tables.specs.Rows.{has_room, put_at, Holds};
ghost use Rattle.pl_tables.specs.Undo.{at_rest, content, kept, laid, pushed_key, with_gap};
ghost use Rattle.pl_tables.specs.Undo.{InStep, IsInOrder, MayLay};

use crate::heap::Heap;
use crate::table::{MOST_ROWS, refusal};
use crate::{Slot, TableFail};
use pl_base::Cells;
use pl_unique::{Key, KeyMap, change_keys, forget_keys, undo_keys};
use std::alloc::{AllocError, Global};

/// Puts the row under this id, in the place of the one that is there or among the others.
pub(crate) fn put_row(
    alloc: Global,
    heap: &mut Heap,
    keys: &mut Vec<Key>,
    id: u64,
    row: Cells,
) -> Result<(), TableFail>
    requires step { AllByRecursion (InStep heap.old) keys.old.items }
    requires rest { heap.old.past ≡ [] }
    requires below { id < 2 ^ 63 }
    ensures step { AllByRecursion (InStep heap.new) keys.new.items }
    ensures rest { heap.new.past ≡ [] }
    ensures columns { columns_of keys.new.items ≡ columns_of keys.old.items }
    ensures full { (result ≡ Err TableFail.Full)
        ↔ (has_room id (content (columns_of keys.old.items) heap.old.current) ≡ false) }
    ensures taken { (holder : _) → result ≡ Err (TableFail.Taken holder) → (holder ≢ id)
        × Holds row (content (columns_of keys.old.items) heap.old.current) holder }
    ensures free { OnOk result ((holder : _)
        → Holds row (content (columns_of keys.old.items) heap.old.current) holder → holder ≡ id) }
    ensures ok { OnOk result (content (columns_of keys.old.items) heap.new.current
        ≡ put_at id row (content (columns_of keys.old.items) heap.old.current)) }
    ensures err { OnErr result (content (columns_of keys.old.items) heap.new.current
        ≡ content (columns_of keys.old.items) heap.old.current) }
{
    if !has_room(heap, id) {
        return Err(TableFail::Full);
    }
    match place_for(alloc, heap, keys, id) {
        Err(_) => Err(TableFail::Memory),
        Ok(place) => lay_row(alloc, heap, keys, place, id, row),
    }
}

// Whether a row of this id is there, or one more can be.
fn has_room(heap: &Heap, id: u64) -> bool
    ensures { result ≡ has_room id (content [] heap.now.current) }
{
    heap.has(id) || heap.count() < MOST_ROWS
}

// Puts the row behind the others, or in the slot of its id, which is at this place.
fn lay_row(
    alloc: Global,
    heap: &mut Heap,
    keys: &mut Vec<Key>,
    place: Option<usize>,
    id: u64,
    row: Cells,
) -> Result<(), TableFail>
    requires step { AllByRecursion (InStep heap.old) keys.old.items }
    requires rest { heap.old.past ≡ [] }
    requires place { MayLay place id heap.old.current }
    requires below { id < 2 ^ 63 }
    ensures step { AllByRecursion (InStep heap.new) keys.new.items }
    ensures columns { columns_of keys.new.items ≡ columns_of keys.old.items }
    ensures full { result ≢ Err TableFail.Full }
    ensures taken { (holder : _) → result ≡ Err (TableFail.Taken holder) → (holder ≢ id)
        × Holds row (content (columns_of keys.old.items) heap.old.current) holder }
    ensures free { OnOk result ((holder : _)
        → Holds row (content (columns_of keys.old.items) heap.old.current) holder → holder ≡ id) }
    ensures ok { OnOk result (heap.new ≡ at_rest (laid place id row heap.old.current)) }
    ensures err { OnErr result (heap.new ≡ heap.old) }
    ensures order { IsInOrder heap.old.current }
{
    match change_keys(alloc, keys, place, Some(row.as_slice())) {
        Err(fail) => Err(refusal(heap, fail)),
        Ok(()) => match heap.lay(place, id, row) {
            Ok(()) => {
                forget_keys(keys);
                Ok(())
            }
            Err(_) => {
                undo_keys(keys);
                Err(TableFail::Memory)
            }
        },
    }
}

// The place of the slot of this id, which is made where there is none. None where the id stands
// behind all others.
fn place_for(
    alloc: Global,
    heap: &mut Heap,
    keys: &mut Vec<Key>,
    id: u64,
) -> Result<Option<usize>, AllocError>
    requires step { AllByRecursion (InStep heap.old) keys.old.items }
    requires rest { heap.old.past ≡ [] }
    ensures step { AllByRecursion (InStep heap.new) keys.new.items }
    ensures rest { heap.new.past ≡ [] }
    ensures columns { columns_of keys.new.items ≡ columns_of keys.old.items }
    ensures place { IfOk result (λ place. MayLay place id heap.new.current) }
    ensures content { content [] heap.new.current ≡ content [] heap.old.current }
{
    if id >= heap.next() {
        return Ok(None);
    }
    match heap.seek(id) {
        Ok(at) => Ok(Some(at)),
        Err(at) => {
            let wider = keys_with_gap(alloc, keys.as_slice(), heap.slots(), at)?;
            heap.open(at, id)?;
            *keys = wider;
            Ok(Some(at))
        }
    }
}

// Keys of the same columns over these slots, with a place for a slot without a row at this one.
fn keys_with_gap(
    alloc: Global,
    keys: &[Key],
    slots: &[Slot],
    at: usize,
) -> Result<Vec<Key>, AllocError>
    requires { at ≤ length slots.now }
    ensures columns { IfOk result (λ wider. columns_of wider.items ≡ columns_of keys.now) }
    ensures step { IfOk result (λ wider. (id next : _) → AllByRecursion
        (InStep (at_rest (with_gap at id (kept slots.now next)))) wider.items) }
{
    let mut wider = same_columns(alloc, keys)?;
    push_rows(alloc, &mut wider, &slots[..at])?;
    push_row(alloc, &mut wider, None)?;
    push_rows(alloc, &mut wider, &slots[at..])?;
    forget_keys(&mut wider);
    Ok(wider)
}

// Keys of the same columns, without rows.
fn same_columns(alloc: Global, keys: &[Key]) -> Result<Vec<Key>, AllocError>
    ensures columns { IfOk result (λ made. columns_of made.items ≡ columns_of keys.now) }
    ensures new { IfOk result (λ made. AllByRecursion IsNew made.items) }
{
    let mut made = Vec::new(alloc);
    for key in keys {
        let columns = Vec::from_slice(alloc, key.columns.as_slice())?;
        made.push(Key {
            columns,
            at: KeyMap::new(alloc),
        })?;
    }
    Ok(made)
}

// Puts the rows of the slots behind those that are there.
fn push_rows(alloc: Global, keys: &mut Vec<Key>, slots: &[Slot]) -> Result<(), AllocError>
    ensures { OnOk result (keys.new.items ≡ map (pushed_key slots.now) keys.old.items) }
{
    for slot in slots {
        push_row(alloc, keys, slot.row.as_ref())?;
    }
    Ok(())
}

fn push_row(alloc: Global, keys: &mut Vec<Key>, row: Option<&Cells>) -> Result<(), AllocError>
    ensures { OnOk result (keys.new.items
        ≡ map (changed_key None (option_copied row.entry)) keys.old.items) }
{
    match change_keys(alloc, keys, None, row.map(|row| row.as_slice())) {
        Ok(()) => Ok(()),
        Err(_) => Err(AllocError),
    }
}
