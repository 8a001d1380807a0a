//! The store and its marks.

ghost use Rattle.std.specs.Prelude.{◌≡◌, ◌≢◌, ◌<◌, ◌≤◌, ◌+◌, ◌^◌, ◌∷◌, ◌++◌, ◌↔◌, [], Some};
ghost use Rattle.std.specs.Prelude.{length, slice_get, take, true, false, Err, IfOk, IsSome};
ghost use Rattle.std.specs.Prelude.{OnOk, OnErr};
ghost use Rattle.std.specs.Option.{ForSome};
ghost use Rattle.pl_catalog.specs.Objects.{tables_in, which_of};
ghost use Rattle.pl_catalog.specs.Refusals.{Answers, add_refusal, drop_refusal, replace_refusal};
ghost use Rattle.pl_tables.specs.Named.{content_named, has_room_named, is_full_named};
ghost use Rattle.pl_tables.specs.Named.{next_named, row_named, HoldsIn};
ghost use Rattle.pl_tables.specs.Rows.{inserted, put_at, raised, removed, replaced};
ghost use Rattle.pl_undo.specs.Database.{database, on_rows, with_exchanged, with_object};
ghost use Rattle.pl_undo.specs.Database.{without_object, IsWhole};

use crate::database::{create_object, drop_object, settle_objects, undo_objects, undo_tables};
use pl_base::{Cells, Name};
use pl_catalog::{Catalog, CatalogFail, Object, Which};
use pl_tables::{TableFail, Tables};
use std::alloc::{AllocError, Global};
use std::marker::Model;

/// How many changes of the objects and of the tables could be undone when a mark was set.
#[derive(Clone, Copy)]
pub struct Start {
    objects: usize,
    tables: usize,
}

/// The database now, that of the last commit and those at the live marks, the oldest first.
#[derive(Drop)]
pub struct Store {
    alloc: Global,
    catalog: Catalog,
    tables: Tables,
    starts: Vec<Start>,
}

impl Model for Store {
    ghost use Rattle.std.specs.Prelude.{◌-◌, map, vec_capacity, vec_len};
    ghost use Rattle.std.specs.Coded.{codes};
    ghost use Rattle.pl_base.specs.contracts.value.Value as value;
    ghost use Rattle.pl_catalog.specs.contracts.object.Object as object;
    ghost use Rattle.pl_undo.specs.Database.{database};
    ghost use Rattle.pl_undo.specs.Store.{at_first, database_at, IsSound, Stored};

    ghost Value = { Stored };

    ghost coded = { Prim.hlevel (codes, value.the_row.coded, object.the_row.coded) };

    ghost view = { λ s. record {
      now = database s.catalog.objects s.tables.current;
      last = database_at s.catalog s.tables at_first;
      marks = map (database_at s.catalog s.tables) s.starts.items;
      spare = vec_capacity s.starts - vec_len s.starts;
    } };

    ghost invariant = { λ s. IsSound s.catalog s.tables s.starts.items };
}

/// A place to go back to, by its number among the live marks.
#[derive(Debug, Drop)]
pub struct Mark {
    pub at: usize,
}

impl Store {
    /// No objects and no marks.
    pub fn new(alloc: Global) -> Store
        ensures now { result.now ≡ database [] [] }
        ensures last { result.last ≡ database [] [] }
        ensures marks { result.marks ≡ [] }
    {
        Store {
            alloc,
            catalog: Catalog::new(alloc),
            tables: Tables::new(alloc),
            starts: Vec::new(alloc),
        }
    }

    /// The objects now.
    pub fn catalog(&self) -> &Catalog
        ensures objects { result.now.objects ≡ self.now.now.objects }
        ensures whole { IsWhole self.now.now }
    {
        &self.catalog
    }

    /// The tables now.
    pub fn tables(&self) -> &Tables
        ensures { result.now.current ≡ self.now.now.tables }
    {
        &self.tables
    }

    /// How many marks are live.
    pub fn depth(&self) -> usize
        ensures { result ≡ length self.now.marks }
    {
        self.starts.len()
    }

    /// Adds the object behind the others; a table has no rows, and the keys that its rules ask for.
    /// Taken where an object of its kind has its name.
    pub fn create(&mut self, object: Object) -> Result<(), CatalogFail>
        ensures answers { Answers result (add_refusal (which_of object) self.old.now.objects) }
        ensures ok { OnOk result (self.new.now ≡ with_object object self.old.now) }
        ensures err { OnErr result (self.new.now ≡ self.old.now) }
        ensures last { self.new.last ≡ self.old.last }
        ensures marks { self.new.marks ≡ self.old.marks }
        ensures spare { self.new.spare ≡ self.old.spare }
    {
        create_object(self.alloc, &mut self.catalog, &mut self.tables, object)
    }

    /// Puts the object, which is no table, in the place of the one of its kind and name. Absent
    /// where none is there.
    pub fn replace_object(&mut self, object: Object) -> Result<(), CatalogFail>
        requires plain { tables_in (object ∷ []) ≡ [] }
        ensures answers { Answers result (replace_refusal (which_of object) self.old.now.objects) }
        ensures ok { OnOk result (self.new.now ≡ with_exchanged object self.old.now) }
        ensures err { OnErr result (self.new.now ≡ self.old.now) }
        ensures last { self.new.last ≡ self.old.last }
        ensures marks { self.new.marks ≡ self.old.marks }
        ensures spare { self.new.spare ≡ self.old.spare }
    {
        self.catalog.replace(object)
    }

    /// Takes out this one object, a table with its rows; its triggers stay. Absent where it isn't
    /// there, Dependent where another object needs it.
    pub fn drop_object(&mut self, which: Which) -> Result<(), CatalogFail>
        ensures answers { Answers result (drop_refusal which self.old.now.objects) }
        ensures ok { OnOk result (self.new.now ≡ without_object which self.old.now) }
        ensures err { OnErr result (self.new.now ≡ self.old.now) }
        ensures last { self.new.last ≡ self.old.last }
        ensures marks { self.new.marks ≡ self.old.marks }
        ensures spare { self.new.spare ≡ self.old.spare }
    {
        drop_object(&mut self.catalog, &mut self.tables, which)
    }

    /// Adds the row to the table of this name, and answers its id. Full where the table is full,
    /// and else Taken where another row has a key of it.
    pub fn insert(&mut self, name: Name, row: Cells) -> Result<u64, TableFail>
        requires there { IsSome (content_named name self.old.now.tables) }
        ensures full { (result ≡ Err TableFail.Full)
            ↔ (is_full_named name self.old.now.tables ≡ Some true) }
        ensures taken { (id : _) → result ≡ Err (TableFail.Taken id)
            → HoldsIn row id (content_named name self.old.now.tables) }
        ensures free { OnOk result ((id : _)
            → HoldsIn row id (content_named name self.old.now.tables) → ⊥) }
        ensures id { IfOk result (λ id. next_named name self.old.now.tables ≡ Some id) }
        ensures ok { OnOk result (self.new.now ≡ on_rows name (inserted row) self.old.now) }
        ensures err { OnErr result (self.new.now ≡ self.old.now) }
        ensures last { self.new.last ≡ self.old.last }
        ensures marks { self.new.marks ≡ self.old.marks }
        ensures spare { self.new.spare ≡ self.old.spare }
    {
        self.tables.insert(name, row)
    }

    /// Puts the row in the place of the one of this id, in the table of this name. Taken where
    /// another row has a key of it.
    pub fn replace(&mut self, name: Name, id: u64, row: Cells) -> Result<(), TableFail>
        requires there { IsSome (row_named name id self.old.now.tables) }
        ensures full { result ≢ Err TableFail.Full }
        ensures taken { (holder : _) → result ≡ Err (TableFail.Taken holder)
            → (holder ≢ id) × HoldsIn row holder (content_named name self.old.now.tables) }
        ensures free { OnOk result ((holder : _)
            → HoldsIn row holder (content_named name self.old.now.tables) → holder ≡ id) }
        ensures ok { OnOk result (self.new.now ≡ on_rows name (replaced id row) self.old.now) }
        ensures err { OnErr result (self.new.now ≡ self.old.now) }
        ensures last { self.new.last ≡ self.old.last }
        ensures marks { self.new.marks ≡ self.old.marks }
        ensures spare { self.new.spare ≡ self.old.spare }
    {
        self.tables.replace(name, id, row)
    }

    /// Takes the row of this id out of the table of this name.
    pub fn remove(&mut self, name: Name, id: u64) -> Result<(), AllocError>
        requires there { IsSome (row_named name id self.old.now.tables) }
        ensures ok { OnOk result (self.new.now ≡ on_rows name (removed id) self.old.now) }
        ensures err { OnErr result (self.new.now ≡ self.old.now) }
        ensures last { self.new.last ≡ self.old.last }
        ensures marks { self.new.marks ≡ self.old.marks }
        ensures spare { self.new.spare ≡ self.old.spare }
    {
        self.tables.remove(name, id)
    }

    /// Puts the row under this id into the table of this name, in the place of the one that is
    /// there or among the others, as a stored operation says. Full where none is there and
    /// 1,000,000 others are, and else Taken where another row has a key of it. The database now is
    /// then that of the last commit.
    pub fn put_at(&mut self, name: Name, id: u64, row: Cells) -> Result<(), TableFail>
        requires there { IsSome (content_named name self.old.now.tables) }
        requires below { id < 2 ^ 63 }
        requires unmarked { self.old.marks ≡ [] }
        ensures full { (result ≡ Err TableFail.Full)
            ↔ (has_room_named name id self.old.now.tables ≡ Some false) }
        ensures taken { (holder : _) → result ≡ Err (TableFail.Taken holder)
            → (holder ≢ id) × HoldsIn row holder (content_named name self.old.now.tables) }
        ensures free { OnOk result ((holder : _)
            → HoldsIn row holder (content_named name self.old.now.tables) → holder ≡ id) }
        ensures ok { OnOk result (self.new.now ≡ on_rows name (put_at id row) self.old.now) }
        ensures err { OnErr result (self.new.now ≡ self.old.now) }
        ensures last { self.new.last ≡ self.new.now }
        ensures marks { self.new.marks ≡ [] }
    {
        settle_objects(&mut self.catalog);
        self.tables.put_at(name, id, row)
    }

    /// The next new row of the table of this name gets this id, as a stored operation says. The
    /// database now is then that of the last commit.
    pub fn raise_next(&mut self, name: Name, next: u64)
        requires there { IsSome (content_named name self.old.now.tables) }
        requires next { ForSome (next_named name self.old.now.tables) (λ n. n ≤ next) }
        requires unmarked { self.old.marks ≡ [] }
        ensures now { self.new.now ≡ on_rows name (raised next) self.old.now }
        ensures last { self.new.last ≡ self.new.now }
        ensures marks { self.new.marks ≡ [] }
    {
        settle_objects(&mut self.catalog);
        self.tables.raise_next(name, next);
    }

    /// Takes the room for one more mark.
    pub fn reserve_mark(&mut self) -> Result<(), AllocError>
        ensures now { self.new.now ≡ self.old.now }
        ensures last { self.new.last ≡ self.old.last }
        ensures marks { self.new.marks ≡ self.old.marks }
        ensures spare { OnOk result (1 ≤ self.new.spare) }
    {
        self.starts.reserve(1)
    }

    /// Sets a mark at the database now.
    pub fn mark(&mut self) -> Mark
        requires room { 1 ≤ self.old.spare }
        ensures now { self.new.now ≡ self.old.now }
        ensures last { self.new.last ≡ self.old.last }
        ensures marks { self.new.marks ≡ self.old.marks ++ self.old.now ∷ [] }
        ensures at { result.at ≡ length self.old.marks }
    {
        let at = self.starts.len();
        self.starts.push_reserved(Start {
            objects: self.catalog.changes(),
            tables: self.tables.changes(),
        });
        Mark { at }
    }

    /// Goes back to the mark. Destroys later marks, and keeps this one.
    pub fn roll_back(&mut self, mark: &Mark)
        requires live { mark.now.at < length self.old.marks }
        ensures now { slice_get self.old.marks mark.now.at ≡ Some self.new.now }
        ensures last { self.new.last ≡ self.old.last }
        ensures marks { self.new.marks ≡ take (mark.now.at + 1) self.old.marks }
    {
        let start = self.starts[mark.at];
        undo_objects(&mut self.catalog, start.objects);
        undo_tables(&mut self.tables, start.tables);
        self.starts.truncate(mark.at + 1);
    }

    /// Destroys this mark and later ones.
    pub fn release(&mut self, mark: Mark)
        requires live { mark.at < length self.old.marks }
        ensures now { self.new.now ≡ self.old.now }
        ensures last { self.new.last ≡ self.old.last }
        ensures marks { self.new.marks ≡ take mark.at self.old.marks }
    {
        self.starts.truncate(mark.at);
    }

    /// The database now becomes that of the last commit. No mark is live then.
    pub fn seal(&mut self)
        ensures now { self.new.now ≡ self.old.now }
        ensures last { self.new.last ≡ self.old.now }
        ensures marks { self.new.marks ≡ [] }
    {
        self.starts.clear();
        self.catalog.forget();
        self.tables.forget();
    }

    /// Goes back to the last commit. No mark is live then.
    pub fn reset(&mut self)
        ensures now { self.new.now ≡ self.old.last }
        ensures last { self.new.last ≡ self.old.last }
        ensures marks { self.new.marks ≡ [] }
    {
        self.starts.clear();
        undo_objects(&mut self.catalog, 0);
        undo_tables(&mut self.tables, 0);
    }
}
