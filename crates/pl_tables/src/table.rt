//! A table.

ghost use Rattle.std.specs.Prelude.{◌≡◌, ◌≢◌, ◌<◌, ◌↔◌, [], Some, Err, IsTrue, IsSome, length};
ghost use Rattle.std.specs.Prelude.{slice_get, IfOk, OnOk, OnErr, option_and_then, option_copied};
ghost use Rattle.std.specs.Prelude.{◌≤◌, ◌^◌, false, option_map};
ghost use Rattle.pl_history.specs.History.{back, changed, settled};
ghost use Rattle.pl_tables.specs.Rows.{has_room, inserted, is_full, key_at, no_rows, put_at};
ghost use Rattle.pl_tables.specs.Rows.{raised, removed, replaced, row_at, Holds};
ghost use Rattle.pl_tables.specs.Slots.{id_at, live};
ghost use Rattle.pl_tables.specs.Undo.{IsInOrder};

use crate::Slot;
use crate::heap::Heap;
use crate::putting::put_row;
use pl_base::{Cells, List};
use pl_unique::{Key, KeyFail, Part, change_keys, forget_keys, new_keys, undo_keys};
use std::alloc::{AllocError, Global};
use std::marker::Model;

/// The most rows that a table has.
pub(crate) const MOST_ROWS: usize = 1_000_000;

/// Each row id is below this.
const ID_BOUND: u64 = 1 << 63;

/// Why a table isn't changed.
#[derive(Clone, Copy)]
pub enum TableFail {
    /// The row of this id has a key of the new one.
    Taken(u64),
    /// There would be more than 1,000,000 rows, or no row id is left.
    Full,
    Memory,
}

impl From<AllocError> for TableFail {
    fn from(_: AllocError) -> Self
        ensures { result ≡ TableFail.Memory }
    {
        TableFail::Memory
    }
}

/// The rows of a table by their ids, its keys, and what is needed to undo changes.
#[derive(Drop)]
pub struct Table {
    alloc: Global,
    heap: Heap,
    keys: Vec<Key>,
}

impl Model for Table {
    ghost use Rattle.std.specs.List.{AllByRecursion};
    ghost use Rattle.std.specs.Coded.{codes};
    ghost use Rattle.pl_base.specs.contracts.value.Value as value;
    ghost use Rattle.pl_history.specs.History.{History, seen_as};
    ghost use Rattle.pl_tables.specs.Rows.{Content};
    ghost use Rattle.pl_tables.specs.Undo.{content, InStep};
    ghost use Rattle.pl_unique.specs.RowKeys.{columns_of};

    ghost Value = { History Content };

    ghost coded = { Prim.hlevel (codes, value.the_row.coded) };

    ghost view = { λ t. seen_as (content (columns_of t.keys.items)) t.heap };

    ghost invariant = { λ t. AllByRecursion (InStep t.heap) t.keys.items };
}

impl Table {
    /// A table without rows, with keys of these columns, by their places in a row.
    pub fn new(alloc: Global, keys: &[List<usize>]) -> Result<Table, AllocError>
        ensures current { IfOk result (λ table. table.current ≡ no_rows keys.now) }
        ensures past { IfOk result (λ table. table.past ≡ []) }
    {
        let keys = new_keys(alloc, keys)?;
        Ok(Table {
            alloc,
            heap: Heap::new(alloc),
            keys,
        })
    }

    // A table without rows and keys.
    pub(crate) fn empty(alloc: Global) -> Table
        ensures past { result.past ≡ [] }
    {
        Table {
            alloc,
            heap: Heap::new(alloc),
            keys: Vec::new(alloc),
        }
    }

    /// The rows in the order of their ids, and between them slots without a row.
    pub fn slots(&self) -> &[Slot]
        ensures { live result.now ≡ self.now.current.rows }
    {
        self.heap.slots()
    }

    /// How many rows there are.
    pub fn count(&self) -> usize
        ensures { result ≡ length self.now.current.rows }
    {
        self.heap.count()
    }

    /// The row of this id. None where there is none.
    pub fn row(&self, id: u64) -> Option<&Cells>
        ensures { option_copied result ≡ row_at id self.now.current.rows }
    {
        let at = self.heap.place_of(id)?;
        self.heap.slot(at).row.as_ref()
    }

    /// How many keys there are.
    pub fn key_count(&self) -> usize
        ensures { result ≡ length self.now.current.keys }
    {
        self.keys.len()
    }

    /// The id of the row that has these parts in the columns of this key, of which 0 is the first.
    /// None where no row has.
    pub fn find_key(&self, key: usize, parts: &[Part]) -> Option<u64>
        requires there { key < length self.now.current.keys }
        ensures { (id : _) → (result ≡ Some id)
            ↔ (option_and_then (λ columns. key_at columns id self.now.current.rows)
            (slice_get self.now.current.keys key) ≡ Some parts.now) }
    {
        match self.keys[key].at.place_of(parts) {
            Some(at) => Some(self.heap.slot(at).id),
            None => None,
        }
    }

    /// Whether no row can be added: 1,000,000 rows are there, or the next id is 2^63.
    pub fn is_full(&self) -> bool
        ensures { result ≡ is_full self.now.current }
    {
        self.heap.count() >= MOST_ROWS || self.heap.next() >= ID_BOUND
    }

    /// Adds the row and answers its id. Full where there are 1,000,000 rows, or the next id is
    /// 2^63, and else Taken where another row has a key of it. The row keeps the room that it came
    /// in, so a list with room for more values takes that much more memory.
    pub fn insert(&mut self, row: Cells) -> Result<u64, TableFail>
        ensures full { (result ≡ Err TableFail.Full) ↔ IsTrue (is_full self.old.current) }
        ensures taken { (id : _) → result ≡ Err (TableFail.Taken id)
            → Holds row self.old.current id }
        ensures free { OnOk result ((id : _) → Holds row self.old.current id → ⊥) }
        ensures id { IfOk result (λ id. id ≡ self.old.current.next) }
        ensures ok { OnOk result (self.new ≡ changed (inserted row self.old.current) self.old) }
        ensures err { OnErr result (self.new ≡ self.old) }
    {
        if self.is_full() {
            return Err(TableFail::Full);
        }
        match change_keys(self.alloc, &mut self.keys, None, Some(row.as_slice())) {
            Err(fail) => Err(refusal(&self.heap, fail)),
            Ok(()) => {
                let id = self.heap.next();
                match self.heap.append(row) {
                    Ok(()) => Ok(id),
                    Err(_) => {
                        undo_keys(&mut self.keys);
                        Err(TableFail::Memory)
                    }
                }
            }
        }
    }

    /// Puts the row in the place of the one of this id. Taken where another row has a key of it.
    pub fn replace(&mut self, id: u64, row: Cells) -> Result<(), TableFail>
        requires there { IsSome (row_at id self.old.current.rows) }
        ensures full { result ≢ Err TableFail.Full }
        ensures taken { (holder : _) → result ≡ Err (TableFail.Taken holder)
            → (holder ≢ id) × Holds row self.old.current holder }
        ensures free { OnOk result ((holder : _) → Holds row self.old.current holder
            → holder ≡ id) }
        ensures ok { OnOk result (self.new ≡ changed (replaced id row self.old.current) self.old) }
        ensures err { OnErr result (self.new ≡ self.old) }
    {
        let Some(at) = self.heap.place_of(id) else {
            return Ok(());
        };
        match change_keys(self.alloc, &mut self.keys, Some(at), Some(row.as_slice())) {
            Err(fail) => Err(refusal(&self.heap, fail)),
            Ok(()) => match self.heap.put(self.alloc, at, Some(row)) {
                Ok(()) => Ok(()),
                Err(_) => {
                    undo_keys(&mut self.keys);
                    Err(TableFail::Memory)
                }
            },
        }
    }

    /// Puts the row under this id, in the place of the one that is there or among the others, as a
    /// stored operation says. Full where none is there and 1,000,000 others are, and else Taken
    /// where another row has a key of it. No change can be undone from now on.
    pub fn put_at(&mut self, id: u64, row: Cells) -> Result<(), TableFail>
        requires below { id < 2 ^ 63 }
        ensures full { (result ≡ Err TableFail.Full) ↔ (has_room id self.old.current ≡ false) }
        ensures taken { (holder : _) → result ≡ Err (TableFail.Taken holder)
            → (holder ≢ id) × Holds row self.old.current holder }
        ensures free { OnOk result ((holder : _) → Holds row self.old.current holder
            → holder ≡ id) }
        ensures ok { OnOk result (self.new.current ≡ put_at id row self.old.current) }
        ensures err { OnErr result (self.new.current ≡ self.old.current) }
        ensures past { self.new.past ≡ [] }
    {
        self.heap.forget();
        forget_keys(&mut self.keys);
        put_row(self.alloc, &mut self.heap, &mut self.keys, id, row)
    }

    /// The next new row gets this id, as a stored operation says. No change can be undone from now
    /// on.
    pub fn raise_next(&mut self, next: u64)
        requires { self.old.current.next ≤ next }
        ensures current { self.new.current ≡ raised next self.old.current }
        ensures past { self.new.past ≡ [] }
    {
        self.heap.raise(next);
        forget_keys(&mut self.keys);
    }

    /// The id that the next new row gets.
    pub fn next_id(&self) -> u64
        ensures { result ≡ self.now.current.next }
    {
        self.heap.next()
    }

    /// Takes the row of this id out.
    pub fn remove(&mut self, id: u64) -> Result<(), AllocError>
        requires there { IsSome (row_at id self.old.current.rows) }
        ensures ok { OnOk result (self.new ≡ changed (removed id self.old.current) self.old) }
        ensures err { OnErr result (self.new ≡ self.old) }
    {
        let Some(at) = self.heap.place_of(id) else {
            return Ok(());
        };
        match change_keys(self.alloc, &mut self.keys, Some(at), None) {
            Err(_) => Err(AllocError),
            Ok(()) => match self.heap.put(self.alloc, at, None) {
                Ok(()) => Ok(()),
                Err(fail) => {
                    undo_keys(&mut self.keys);
                    Err(fail)
                }
            },
        }
    }

    /// Undoes the newest change, if there is one.
    pub fn undo(&mut self)
        ensures back { self.new ≡ back self.old }
    {
        self.heap.undo();
        undo_keys(&mut self.keys);
    }

    /// No change can be undone from now on.
    pub fn forget(&mut self)
        ensures settled { self.new ≡ settled self.old }
    {
        self.heap.forget();
        forget_keys(&mut self.keys);
    }
}

// Why a table isn't changed, where keys aren't.
pub(crate) fn refusal(heap: &Heap, fail: KeyFail) -> TableFail
    requires { (at : _) → fail ≡ KeyFail.Taken at → at < length heap.now.current.slots }
    ensures taken { (at : _) → fail ≡ KeyFail.Taken at
        → option_map TableFail.Taken (id_at heap.now.current.slots at) ≡ Some result }
    ensures memory { fail ≡ KeyFail.Memory → result ≡ TableFail.Memory }
    ensures order { IsInOrder heap.now.current }
{
    let slots = heap.slots();
    match fail {
        KeyFail::Taken(at) => TableFail::Taken(slots[at].id),
        KeyFail::Memory => TableFail::Memory,
    }
}
