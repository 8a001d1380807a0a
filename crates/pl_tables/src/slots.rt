//! Rows in the order of their ids, with the places of those that were removed.

ghost use Rattle.std.specs.Prelude.{◌≡◌, ◌<◌, ◌≤◌, ◌-◌, ◌++◌, ◌∷◌, [], Some, None, Ok, Err, IfOk};
ghost use Rattle.std.specs.Prelude.{length, take, OnOk, OnErr};
ghost use Rattle.pl_tables.specs.Rows.{row_at};
ghost use Rattle.pl_tables.specs.Undo.{IsGap};
ghost use Rattle.pl_tables.specs.Slots.{before, id_at, live, row_of, with_row, IsRising};

use pl_base::{Cells, List};
use std::alloc::{AllocError, Global};
use std::mem;

/// A row, or where one was.
#[derive(Drop)]
pub struct Slot {
    pub id: u64,
    /// None where the row was removed.
    pub row: Option<Cells>,
}

// The row in just the room that its values take. A list that grew by pushes has room for more.
fn fitted(alloc: Global, row: Cells) -> Result<Cells, AllocError>
    ensures { IfOk result (λ made. made ≡ row) }
{
    let mut made = List::from_vec(Vec::with_capacity(alloc, row.len())?);
    made.append(row)?;
    Ok(made)
}

/// The row, if there is one, in just the room that its values take.
pub(crate) fn fitted_if(alloc: Global, row: Option<Cells>) -> Result<Option<Cells>, AllocError>
    ensures { IfOk result (λ made. made ≡ row) }
{
    match row {
        Some(row) => Ok(Some(fitted(alloc, row)?)),
        None => Ok(None),
    }
}

/// The place of the slot of this id, or else the one at which it would stand.
pub(crate) fn seek(slots: &[Slot], id: u64) -> Result<usize, usize>
    requires { IsRising slots.now }
    ensures found { (at : _) → result ≡ Ok at → id_at slots.now at ≡ Some id }
    ensures none { (at : _) → result ≡ Err at → row_at id (live slots.now) ≡ None }
    ensures gap { (at : _) → result ≡ Err at → IsGap id at slots.now }
{
    let mut low = 0;
    let mut high = slots.len();
    while low < high {
        let middle = low + (high - low) / 2;
        let found = slots[middle].id;
        if found == id {
            return Ok(middle);
        }
        if found < id {
            low = middle + 1;
        } else {
            high = middle;
        }
    }
    Err(low)
}

/// The place of the slot of this id. None where there is none.
pub(crate) fn place_of(slots: &[Slot], id: u64) -> Option<usize>
    requires { IsRising slots.now }
    ensures some { (at : _) → result ≡ Some at → id_at slots.now at ≡ Some id }
    ensures none { result ≡ None → row_at id (live slots.now) ≡ None }
{
    match seek(slots, id) {
        Ok(at) => Some(at),
        Err(_) => None,
    }
}

/// Gives the slot at this place another row, or none, and answers the one that it had.
pub(crate) fn swap_row(slots: &mut Vec<Slot>, at: usize, row: Option<Cells>) -> Option<Cells>
    requires { at < length slots.old.items }
    ensures slots { slots.new.items ≡ with_row slots.old.items at row }
    ensures row { result ≡ row_of slots.old.items at }
{
    mem::replace(&mut slots[at].row, row)
}

/// Puts a slot of this id behind the others, and answers how many rows there are then, of this many
/// before.
pub(crate) fn push_slot(
    slots: &mut Vec<Slot>,
    id: u64,
    row: Cells,
    count: usize,
) -> Result<usize, AllocError>
    requires { count ≡ length (live slots.old.items) }
    ensures ok { OnOk result (slots.new.items
        ≡ slots.old.items ++ record { id = id; row = Some row } ∷ []) }
    ensures count { IfOk result (λ count. count ≡ length (live slots.new.items)) }
    ensures err { OnErr result (slots.new.items ≡ slots.old.items) }
{
    slots.push(Slot { id, row: Some(row) })?;
    Ok(count + 1)
}

/// Takes the last slot away, if there is one, and answers how many rows are left of this many.
pub(crate) fn pop_slot(slots: &mut Vec<Slot>, count: usize) -> usize
    requires { count ≡ length (live slots.old.items) }
    ensures slots { slots.new.items ≡ take (length slots.old.items - 1) slots.old.items }
    ensures count { result ≡ length (live slots.new.items) }
{
    match slots.pop() {
        Some(slot) => less_row(count, &slot),
        None => count,
    }
}

fn less_row(count: usize, slot: &Slot) -> usize
    requires { length (before slot.now.id slot.now.row []) ≤ count }
    ensures { result ≡ count - length (before slot.now.id slot.now.row []) }
{
    match &slot.row {
        Some(_) => count - 1,
        None => count,
    }
}

/// Gives the slot at this place, if there is one, this row. Answers how many rows there are then.
pub(crate) fn restore(slots: &mut Vec<Slot>, at: usize, row: Cells, count: usize) -> usize
    requires { count ≡ length (live slots.old.items) }
    ensures slots { slots.new.items ≡ with_row slots.old.items at (Some row) }
    ensures count { result ≡ length (live slots.new.items) }
{
    if at >= slots.len() {
        return count;
    }
    match swap_row(slots, at, Some(row)) {
        Some(_) => count,
        None => count + 1,
    }
}
