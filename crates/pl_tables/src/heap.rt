//! The rows of a table at their places, and the undoing of changes.

ghost use Rattle.std.specs.Prelude.{◌≡◌, ◌≤◌, ◌<◌, ◌-◌, ◌+◌, ◌^◌, [], None, Some, Ok, Err, IsSome};
ghost use Rattle.std.specs.Prelude.{false, is_some, length};
ghost use Rattle.std.specs.Prelude.{slice_get, OnOk, OnErr};
ghost use Rattle.pl_history.specs.History.{back, changed, settled};
ghost use Rattle.pl_tables.specs.Rows.{is_full, row_at};
ghost use Rattle.pl_tables.specs.Slots.{before, id_at, live, row_of};
ghost use Rattle.pl_tables.specs.Undo.{at_rest, content, kept, laid, with_gap, with_row_at};
ghost use Rattle.pl_tables.specs.Undo.{with_slot, IsGap, IsInOrder, MayLay};

use crate::Slot;
use crate::slots::{fitted_if, place_of, pop_slot, push_slot, restore, seek, swap_row};
use pl_base::Cells;
use std::alloc::{AllocError, Global};
use std::marker::Model;

// How a change is undone.
#[derive(Drop)]
pub enum Change {
    /// The last slot goes, and the next id is its own again.
    Added,
    /// The slot at this place has this row again.
    Changed { at: usize, row: Cells },
}

/// Rows in the order of their ids. Places count from 0.
#[derive(Drop)]
pub struct Heap {
    slots: Vec<Slot>,
    /// The id that the next new row gets.
    next: u64,
    /// How many slots have a row.
    count: usize,
    changes: Vec<Change>,
}

impl Model for Heap {
    ghost use Rattle.std.specs.Prelude.{◌≡◌, length};
    ghost use Rattle.std.specs.List.{AllByRecursion};
    ghost use Rattle.std.specs.Coded.{codes};
    ghost use Rattle.pl_base.specs.contracts.value.Value as value;
    ghost use Rattle.pl_history.specs.History.{History, history, past_of};
    ghost use Rattle.pl_tables.specs.Slots.{live};
    ghost use Rattle.pl_tables.specs.Undo.{kept, undo_one, IsInOrder, Kept};

    ghost Value = { History Kept };

    ghost coded = { Prim.hlevel (codes, value.the_row.coded) };

    ghost view = { λ h. history undo_one h.changes.items (kept h.slots.items h.next) };

    ghost invariant = { λ h. IsInOrder (kept h.slots.items h.next)
        × AllByRecursion IsInOrder (past_of undo_one h.changes.items (kept h.slots.items h.next))
        × (h.count ≡ length (live h.slots.items)) };
}

impl Heap {
    /// No rows.
    pub(crate) fn new(alloc: Global) -> Heap
        ensures current { result.current ≡ kept [] 1 }
        ensures past { result.past ≡ [] }
    {
        Heap {
            slots: Vec::new(alloc),
            next: 1,
            count: 0,
            changes: Vec::new(alloc),
        }
    }

    /// The rows in the order of their ids, and between them slots without a row.
    pub(crate) fn slots(&self) -> &[Slot]
        ensures slots { result.now ≡ self.now.current.slots }
        ensures order { IsInOrder self.now.current }
    {
        self.slots.as_slice()
    }

    /// The slot at this place.
    pub(crate) fn slot(&self, at: usize) -> &Slot
        requires { at < length self.now.current.slots }
        ensures slot { slice_get self.now.current.slots at ≡ Some result.now }
        ensures order { IsInOrder self.now.current }
    {
        &self.slots[at]
    }

    /// The id that the next new row gets.
    pub(crate) fn next(&self) -> u64
        ensures { result ≡ self.now.current.next }
    {
        self.next
    }

    /// How many rows there are.
    pub(crate) fn count(&self) -> usize
        ensures { result ≡ length (live self.now.current.slots) }
    {
        self.count
    }

    /// The place of the slot of this id. None where there is none.
    pub(crate) fn place_of(&self, id: u64) -> Option<usize>
        ensures some { (at : _) → result ≡ Some at
            → id_at self.now.current.slots at ≡ Some id }
        ensures none { result ≡ None → row_at id (live self.now.current.slots) ≡ None }
        ensures order { IsInOrder self.now.current }
    {
        place_of(self.slots.as_slice(), id)
    }

    /// The place of the slot of this id, or else the one at which it would stand.
    pub(crate) fn seek(&self, id: u64) -> Result<usize, usize>
        ensures found { (at : _) → result ≡ Ok at → id_at self.now.current.slots at ≡ Some id }
        ensures none { (at : _) → result ≡ Err at
            → row_at id (live self.now.current.slots) ≡ None }
        ensures gap { (at : _) → result ≡ Err at → IsGap id at self.now.current.slots }
        ensures order { IsInOrder self.now.current }
    {
        seek(self.slots.as_slice(), id)
    }

    /// Whether there is a row of this id.
    pub(crate) fn has(&self, id: u64) -> bool
        ensures { result ≡ is_some (row_at id (live self.now.current.slots)) }
    {
        match self.place_of(id) {
            Some(at) => self.slot(at).row.is_some(),
            None => false,
        }
    }

    /// Adds a row behind the others, where one can be added. It keeps the room that it came in.
    pub(crate) fn append(&mut self, row: Cells) -> Result<(), AllocError>
        requires room { is_full (content [] self.old.current) ≡ false }
        ensures ok { OnOk result (self.new ≡ changed (with_slot row self.old.current) self.old) }
        ensures err { OnErr result (self.new ≡ self.old) }
    {
        self.changes.reserve(1)?;
        self.slots.reserve(1)?;
        let id = self.next;
        self.slots.push_reserved(Slot { id, row: Some(row) });
        self.changes.push_reserved(Change::Added);
        self.next = id + 1;
        self.count += 1;
        Ok(())
    }

    /// Gives the slot at this place, which has a row, another one or none.
    pub(crate) fn put(
        &mut self,
        alloc: Global,
        at: usize,
        row: Option<Cells>,
    ) -> Result<(), AllocError>
        requires there { IsSome (row_of self.old.current.slots at) }
        ensures ok { OnOk result (self.new
            ≡ changed (with_row_at at row self.old.current) self.old) }
        ensures err { OnErr result (self.new ≡ self.old) }
    {
        let row = fitted_if(alloc, row)?;
        self.changes.reserve(1)?;
        let count = rows_after(self.count, &row);
        if let Some(old) = swap_row(&mut self.slots, at, row) {
            self.changes.push_reserved(Change::Changed { at, row: old });
            self.count = count;
        }
        Ok(())
    }

    /// Puts the row under this id, behind the others or in the slot at this place. No change can be
    /// undone from now on.
    pub(crate) fn lay(
        &mut self,
        place: Option<usize>,
        id: u64,
        row: Cells,
    ) -> Result<(), AllocError>
        requires place { MayLay place id self.old.current }
        requires below { id < 2 ^ 63 }
        ensures ok { OnOk result (self.new ≡ at_rest (laid place id row self.old.current)) }
        ensures err { OnErr result (self.new ≡ at_rest self.old.current) }
        ensures order { IsInOrder self.old.current }
    {
        self.changes.clear();
        match place {
            None => {
                self.count = push_slot(&mut self.slots, id, row, self.count)?;
                self.next = id + 1;
            }
            Some(at) => self.count = restore(&mut self.slots, at, row, self.count),
        }
        Ok(())
    }

    /// Makes a slot of this id without a row, at this place. No change can be undone from now on.
    pub(crate) fn open(&mut self, at: usize, id: u64) -> Result<(), AllocError>
        requires gap { IsGap id at self.old.current.slots }
        requires below { id < self.old.current.next }
        ensures ok { OnOk result (self.new ≡ at_rest (with_gap at id self.old.current)) }
        ensures err { OnErr result (self.new ≡ at_rest self.old.current) }
    {
        self.changes.clear();
        match self.slots.insert(at, Slot { id, row: None }) {
            Ok(()) => Ok(()),
            Err(_) => Err(AllocError),
        }
    }

    /// The next new row gets this id. No change can be undone from now on.
    pub(crate) fn raise(&mut self, next: u64)
        requires { self.old.current.next ≤ next }
        ensures { self.new ≡ at_rest (kept self.old.current.slots next) }
    {
        self.changes.clear();
        self.next = next;
    }

    /// Undoes the newest change, if there is one.
    pub(crate) fn undo(&mut self)
        ensures back { self.new ≡ back self.old }
    {
        match self.changes.pop() {
            Some(Change::Added) => {
                self.count = pop_slot(&mut self.slots, self.count);
                self.next = self.next.saturating_sub(1);
            }
            Some(Change::Changed { at, row }) => {
                self.count = restore(&mut self.slots, at, row, self.count);
            }
            None => {}
        }
    }

    /// No change can be undone from now on.
    pub(crate) fn forget(&mut self)
        ensures settled { self.new ≡ settled self.old }
    {
        self.changes.clear();
    }
}

// How many rows there are, of this many, when this one has come in the place of another.
fn rows_after(count: usize, row: &Option<Cells>) -> usize
    requires { 1 ≤ count }
    ensures { result ≡ count - 1 + length (before 0 row.now []) }
{
    match row {
        Some(_) => count,
        None => count - 1,
    }
}
