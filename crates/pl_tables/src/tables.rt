//! Tables by their names.

ghost use Rattle.std.specs.Prelude.{◌≡◌, ◌≢◌, ◌<◌, ◌-◌, ◌∷◌, ◌++◌, ◌↔◌, [], None, IsSome, true};
ghost use Rattle.std.specs.Prelude.{◌≤◌, ◌^◌, false};
ghost use Rattle.std.specs.Prelude.{length, option_map, slice_get, take, Err, IfOk, OnOk, OnErr, Some};
ghost use Rattle.std.specs.List.{position};
ghost use Rattle.std.specs.Option.{option_copied, ForSome};
ghost use Rattle.pl_history.specs.History.{back, changed, settled};
ghost use Rattle.pl_tables.specs.Rows.{inserted, no_rows, put_at, raised, removed, replaced};
ghost use Rattle.pl_tables.specs.Named.{content_named, is_full_named, named, next_named, on_table};
ghost use Rattle.pl_tables.specs.Named.{has_room_named, row_named, without_table, HoldsIn};
ghost use Rattle.pl_tables.specs.Places.{content_in, gone, is_at, is_full_in, next_in, row_in};
ghost use Rattle.pl_tables.specs.Places.{has_room_in, undone_place, with_insert, with_put, with_raised};
ghost use Rattle.pl_tables.specs.Places.{settled_place, there, with_place, with_remove, with_replace};

use crate::{Table, TableFail};
use pl_base::{Cells, List, Name};
use std::alloc::{AllocError, Global};
use std::marker::Model;

/// A table and its name, or where one was.
#[derive(Drop)]
pub struct Place {
    name: Name,
    table: Table,
    is_there: bool,
}

// How a change is undone.
#[derive(Clone, Copy)]
pub enum Step {
    /// The last place goes.
    Created,
    /// The table at this place is there again.
    Dropped(usize),
    /// The newest change of the table at this place is undone.
    Changed(usize),
}

/// Tables in the order in which they were created, and what is needed to undo changes of them.
#[derive(Drop)]
pub struct Tables {
    alloc: Global,
    places: Vec<Place>,
    steps: Vec<Step>,
}

impl Model for Tables {
    ghost use Rattle.std.specs.Prelude.{List};
    ghost use Rattle.std.specs.Coded.{codes};
    ghost use Rattle.pl_base.specs.contracts.value.Value as value;
    ghost use Rattle.pl_history.specs.History.{History, history, seen_as};
    ghost use Rattle.pl_tables.specs.Named.{Named};
    ghost use Rattle.pl_tables.specs.Places.{there, undo_step};

    ghost Value = { History (List Named) };

    ghost coded = { Prim.hlevel (codes, value.the_row.coded) };

    ghost view = { λ t. seen_as there (history undo_step t.steps.items t.places.items) };
}

impl Tables {
    /// No tables.
    pub fn new(alloc: Global) -> Tables
        ensures current { result.current ≡ [] }
        ensures past { result.past ≡ [] }
    {
        Tables {
            alloc,
            places: Vec::new(alloc),
            steps: Vec::new(alloc),
        }
    }

    /// How many changes can be undone.
    pub fn changes(&self) -> usize
        ensures { result ≡ length self.now.past }
    {
        self.steps.len()
    }

    /// The table of this name. None where there is none.
    pub fn table(&self, name: Name) -> Option<&Table>
        ensures { option_map (λ t. t.current) (option_copied result)
            ≡ content_named name self.now.current }
    {
        match place_of(self.places.as_slice(), &name) {
            Some(at) => Some(&self.places[at].table),
            None => None,
        }
    }

    /// Adds a table without rows, of a name that no table has, with keys of these columns, by their
    /// places in a row.
    pub fn create(&mut self, name: Name, keys: &[List<usize>]) -> Result<(), AllocError>
        requires absent { content_named name self.old.current ≡ None }
        ensures ok { OnOk result (self.new
            ≡ changed (self.old.current ++ named name (no_rows keys.now) ∷ []) self.old) }
        ensures err { OnErr result (self.new ≡ self.old) }
    {
        let table = Table::new(self.alloc, keys)?;
        self.steps.reserve(1)?;
        self.places.reserve(1)?;
        self.places.push_reserved(Place {
            name,
            table,
            is_there: true,
        });
        self.steps.push_reserved(Step::Created);
        Ok(())
    }

    /// Takes the table of this name out.
    pub fn drop_table(&mut self, name: Name) -> Result<(), AllocError>
        requires there { IsSome (content_named name self.old.current) }
        ensures ok { OnOk result (self.new
            ≡ changed (without_table name self.old.current) self.old) }
        ensures err { OnErr result (self.new ≡ self.old) }
    {
        self.steps.reserve(1)?;
        if let Some(at) = place_of(self.places.as_slice(), &name) {
            take_out(&mut self.places, at);
            self.steps.push_reserved(Step::Dropped(at));
        }
        Ok(())
    }

    /// Adds the row to the table of this name, and answers its id. Full where the table is full,
    /// and else Taken where another row has a key of it.
    pub fn insert(&mut self, name: Name, row: Cells) -> Result<u64, TableFail>
        requires there { IsSome (content_named name self.old.current) }
        ensures full { (result ≡ Err TableFail.Full)
            ↔ (is_full_named name self.old.current ≡ Some true) }
        ensures taken { (id : _) → result ≡ Err (TableFail.Taken id)
            → HoldsIn row id (content_named name self.old.current) }
        ensures free { OnOk result ((id : _)
            → HoldsIn row id (content_named name self.old.current) → ⊥) }
        ensures id { IfOk result (λ id. next_named name self.old.current ≡ Some id) }
        ensures ok { OnOk result (self.new
            ≡ changed (on_table name (inserted row) self.old.current) self.old) }
        ensures err { OnErr result (self.new ≡ self.old) }
    {
        match place_of(self.places.as_slice(), &name) {
            None => Err(TableFail::Memory),
            Some(at) => {
                if is_full_at(self.places.as_slice(), at) {
                    return Err(TableFail::Full);
                }
                match self.steps.reserve(1) {
                    Err(_) => Err(TableFail::Memory),
                    Ok(()) => match insert_at(&mut self.places, at, row) {
                        Err(fail) => Err(fail),
                        Ok(id) => {
                            self.steps.push_reserved(Step::Changed(at));
                            Ok(id)
                        }
                    },
                }
            }
        }
    }

    /// Puts the row in the place of the one of this id, in the table of this name. Taken where
    /// another row has a key of it.
    pub fn replace(&mut self, name: Name, id: u64, row: Cells) -> Result<(), TableFail>
        requires there { IsSome (row_named name id self.old.current) }
        ensures full { result ≢ Err TableFail.Full }
        ensures taken { (holder : _) → result ≡ Err (TableFail.Taken holder)
            → (holder ≢ id) × HoldsIn row holder (content_named name self.old.current) }
        ensures free { OnOk result ((holder : _)
            → HoldsIn row holder (content_named name self.old.current) → holder ≡ id) }
        ensures ok { OnOk result (self.new
            ≡ changed (on_table name (replaced id row) self.old.current) self.old) }
        ensures err { OnErr result (self.new ≡ self.old) }
    {
        if self.steps.reserve(1).is_err() {
            return Err(TableFail::Memory);
        }
        match place_of(self.places.as_slice(), &name) {
            None => Ok(()),
            Some(at) => match replace_at(&mut self.places, at, id, row) {
                Err(fail) => Err(fail),
                Ok(()) => {
                    self.steps.push_reserved(Step::Changed(at));
                    Ok(())
                }
            },
        }
    }

    /// Puts the row under this id into the table of this name, in the place of the one that is
    /// there or among the others, as a stored operation says. Full where none is there and
    /// 1,000,000 others are, and else Taken where another row has a key of it. No change can be
    /// undone from now on.
    pub fn put_at(&mut self, name: Name, id: u64, row: Cells) -> Result<(), TableFail>
        requires there { IsSome (content_named name self.old.current) }
        requires below { id < 2 ^ 63 }
        ensures full { (result ≡ Err TableFail.Full)
            ↔ (has_room_named name id self.old.current ≡ Some false) }
        ensures taken { (holder : _) → result ≡ Err (TableFail.Taken holder)
            → (holder ≢ id) × HoldsIn row holder (content_named name self.old.current) }
        ensures free { OnOk result ((holder : _)
            → HoldsIn row holder (content_named name self.old.current) → holder ≡ id) }
        ensures ok { OnOk result (self.new.current
            ≡ on_table name (put_at id row) self.old.current) }
        ensures err { OnErr result (self.new.current ≡ self.old.current) }
        ensures past { self.new.past ≡ [] }
    {
        settle(&mut self.places, &mut self.steps, self.alloc);
        match place_of(self.places.as_slice(), &name) {
            None => Err(TableFail::Memory),
            Some(at) => put_at_place(&mut self.places, at, id, row),
        }
    }

    /// The next new row of the table of this name gets this id, as a stored operation says. No
    /// change can be undone from now on.
    pub fn raise_next(&mut self, name: Name, next: u64)
        requires there { IsSome (content_named name self.old.current) }
        requires next { ForSome (next_named name self.old.current) (λ n. n ≤ next) }
        ensures current { self.new.current ≡ on_table name (raised next) self.old.current }
        ensures past { self.new.past ≡ [] }
    {
        settle(&mut self.places, &mut self.steps, self.alloc);
        if let Some(at) = place_of(self.places.as_slice(), &name) {
            raise_at(&mut self.places, at, next);
        }
    }

    /// Takes the row of this id out of the table of this name.
    pub fn remove(&mut self, name: Name, id: u64) -> Result<(), AllocError>
        requires there { IsSome (row_named name id self.old.current) }
        ensures ok { OnOk result (self.new
            ≡ changed (on_table name (removed id) self.old.current) self.old) }
        ensures err { OnErr result (self.new ≡ self.old) }
    {
        self.steps.reserve(1)?;
        match place_of(self.places.as_slice(), &name) {
            None => Ok(()),
            Some(at) => match remove_at(&mut self.places, at, id) {
                Err(fail) => Err(fail),
                Ok(()) => {
                    self.steps.push_reserved(Step::Changed(at));
                    Ok(())
                }
            },
        }
    }

    /// Undoes the newest change, if there is one.
    pub fn undo(&mut self)
        ensures back { self.new ≡ back self.old }
    {
        match self.steps.pop() {
            Some(Step::Created) => pop_place(&mut self.places),
            Some(Step::Dropped(at)) => bring_back(&mut self.places, at),
            Some(Step::Changed(at)) => undo_at(&mut self.places, at),
            None => {}
        }
    }

    /// No change can be undone from now on.
    pub fn forget(&mut self)
        ensures settled { self.new ≡ settled self.old }
    {
        settle(&mut self.places, &mut self.steps, self.alloc);
    }
}

// Forgets how the changes are undone, and what dropped tables held.
fn settle(places: &mut Vec<Place>, steps: &mut Vec<Step>, alloc: Global)
    ensures places { there places.new.items ≡ there places.old.items }
    ensures steps { steps.new.items ≡ [] }
{
    while let Some(step) = steps.pop() {
        match step {
            Step::Created => {}
            Step::Dropped(at) => clear_at(places, at, alloc),
            Step::Changed(at) => settle_at(places, at),
        }
    }
}

// Frees what the table at this place held, where it is dropped.
fn clear_at(places: &mut Vec<Place>, at: usize, alloc: Global)
    ensures { there places.new.items ≡ there places.old.items }
{
    if at < places.len() && !places[at].is_there {
        places[at].table = Table::empty(alloc);
    }
}

fn settle_at(places: &mut Vec<Place>, at: usize)
    ensures { places.new.items ≡ with_place places.old.items at settled_place }
{
    if at < places.len() {
        places[at].table.forget();
    }
}

fn place_of(places: &[Place], name: &Name) -> Option<usize>
    ensures { result ≡ position (is_at name.now) places.now }
{
    places
        .iter()
        .position(|place| place.is_there && place.name == *name)
}

fn is_full_at(places: &[Place], at: usize) -> bool
    requires { at < length places.now }
    ensures { is_full_in (slice_get places.now at) ≡ Some result }
{
    places[at].table.is_full()
}

fn insert_at(places: &mut Vec<Place>, at: usize, row: Cells) -> Result<u64, TableFail>
    requires { at < length places.old.items }
    ensures full { (result ≡ Err TableFail.Full)
        ↔ (is_full_in (slice_get places.old.items at) ≡ Some true) }
    ensures taken { (id : _) → result ≡ Err (TableFail.Taken id)
        → HoldsIn row id (content_in (slice_get places.old.items at)) }
    ensures free { OnOk result ((id : _)
        → HoldsIn row id (content_in (slice_get places.old.items at)) → ⊥) }
    ensures id { IfOk result (λ id. next_in (slice_get places.old.items at) ≡ Some id) }
    ensures ok { OnOk result (places.new.items ≡ with_place places.old.items at (with_insert row)) }
    ensures err { OnErr result (places.new.items ≡ places.old.items) }
{
    match places[at].table.insert(row) {
        Ok(id) => Ok(id),
        Err(fail) => Err(fail),
    }
}

fn replace_at(places: &mut Vec<Place>, at: usize, id: u64, row: Cells) -> Result<(), TableFail>
    requires place { at < length places.old.items }
    requires there { IsSome (row_in id (slice_get places.old.items at)) }
    ensures full { result ≢ Err TableFail.Full }
    ensures taken { (holder : _) → result ≡ Err (TableFail.Taken holder)
        → (holder ≢ id) × HoldsIn row holder (content_in (slice_get places.old.items at)) }
    ensures free { OnOk result ((holder : _)
        → HoldsIn row holder (content_in (slice_get places.old.items at)) → holder ≡ id) }
    ensures ok { OnOk result (places.new.items
        ≡ with_place places.old.items at (with_replace id row)) }
    ensures err { OnErr result (places.new.items ≡ places.old.items) }
{
    match places[at].table.replace(id, row) {
        Ok(()) => Ok(()),
        Err(fail) => Err(fail),
    }
}

fn put_at_place(places: &mut Vec<Place>, at: usize, id: u64, row: Cells) -> Result<(), TableFail>
    requires place { at < length places.old.items }
    requires below { id < 2 ^ 63 }
    ensures full { (result ≡ Err TableFail.Full)
        ↔ (has_room_in id (slice_get places.old.items at) ≡ Some false) }
    ensures taken { (holder : _) → result ≡ Err (TableFail.Taken holder)
        → (holder ≢ id) × HoldsIn row holder (content_in (slice_get places.old.items at)) }
    ensures free { OnOk result ((holder : _)
        → HoldsIn row holder (content_in (slice_get places.old.items at)) → holder ≡ id) }
    ensures ok { OnOk result (places.new.items
        ≡ with_place places.old.items at (with_put id row)) }
    ensures err { OnErr result (there places.new.items ≡ there places.old.items) }
{
    match places[at].table.put_at(id, row) {
        Ok(()) => Ok(()),
        Err(fail) => Err(fail),
    }
}

fn raise_at(places: &mut Vec<Place>, at: usize, next: u64)
    requires place { at < length places.old.items }
    requires next { ForSome (next_in (slice_get places.old.items at)) (λ n. n ≤ next) }
    ensures { places.new.items ≡ with_place places.old.items at (with_raised next) }
{
    places[at].table.raise_next(next);
}

fn remove_at(places: &mut Vec<Place>, at: usize, id: u64) -> Result<(), AllocError>
    requires place { at < length places.old.items }
    requires there { IsSome (row_in id (slice_get places.old.items at)) }
    ensures ok { OnOk result (places.new.items ≡ with_place places.old.items at (with_remove id)) }
    ensures err { OnErr result (places.new.items ≡ places.old.items) }
{
    match places[at].table.remove(id) {
        Ok(()) => Ok(()),
        Err(fail) => Err(fail),
    }
}

fn take_out(places: &mut Vec<Place>, at: usize)
    requires { at < length places.old.items }
    ensures { places.new.items ≡ with_place places.old.items at (gone false) }
{
    places[at].is_there = false;
}

fn bring_back(places: &mut Vec<Place>, at: usize)
    ensures { places.new.items ≡ with_place places.old.items at (gone true) }
{
    if at < places.len() {
        places[at].is_there = true;
    }
}

fn undo_at(places: &mut Vec<Place>, at: usize)
    ensures { places.new.items ≡ with_place places.old.items at undone_place }
{
    if at < places.len() {
        places[at].table.undo();
    }
}

fn pop_place(places: &mut Vec<Place>)
    ensures { places.new.items ≡ take (length places.old.items - 1) places.old.items }
{
    places.pop();
}
