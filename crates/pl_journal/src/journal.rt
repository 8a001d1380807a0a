//! A database that keeps its rules, with what was done to it since the last commit.

ghost use Rattle.std.specs.Prelude.{◌≡◌, [], None, Some, IsSome, OnOk, OnErr};
ghost use Rattle.pl_journal.specs.Definitions.{redefined};
ghost use Rattle.pl_journal.specs.Journal.{ChangesOnly, Leads, LeadsTo, Redefines};
ghost use Rattle.pl_journal.specs.Operation.{empty};
ghost use Rattle.pl_journal.specs.Sound.{IsSound};
ghost use Rattle.pl_journal.specs.Writing.{written};
ghost use Rattle.pl_define.specs.pl_reading.Computed.{definition_in};
ghost use Rattle.pl_tables.specs.Named.{row_named};
ghost use Rattle.pl_tables.specs.Rows.{removed};
ghost use Rattle.pl_undo.specs.Database.{on_rows};

use crate::defining::define_object;
use crate::writing::{insert_row, remove_row, replace_row};
use pl_base::{Cells, Name, State, Txt};
use pl_catalog::Catalog;
use pl_define::pl_typing::ScopeFail;
use pl_tables::Tables;
use pl_tree::Definition;
use pl_undo::Store;
use pl_value::Unsettled;
use std::alloc::{AllocError, Global};
use std::marker::Model;

/// A database that keeps its rules, and the operations by which it was changed since the last
/// commit.
#[derive(Drop)]
pub struct Journal {
    pub(crate) alloc: Global,
    pub(crate) store: Store,
    /// The operations, spelled.
    pub(crate) payload: Vec<u8>,
    /// The operation on a row that was spelled last.
    pub(crate) spelling: Vec<u8>,
    /// How many bytes the payload had at each live mark.
    pub(crate) sizes: Vec<usize>,
}

impl Model for Journal {
    ghost use Rattle.std.specs.Prelude.{◌-◌, vec_capacity, vec_len};
    ghost use Rattle.std.specs.Coded.{codes};
    ghost use Rattle.pl_base.specs.contracts.value.Value as value;
    ghost use Rattle.pl_catalog.specs.contracts.object.Object as object;
    ghost use Rattle.pl_journal.specs.Journal.{IsMarked, with_room};
    ghost use Rattle.pl_undo.specs.Store.{Stored};

    ghost Value = { Stored };

    ghost coded = { Prim.hlevel (codes, value.the_row.coded, object.the_row.coded) };

    ghost view = { λ j. with_room (vec_capacity j.sizes - vec_len j.sizes) j.store };

    ghost invariant = { λ j. IsMarked j.payload.items j.sizes.items j.store };
}

impl Journal {
    /// No object, nothing was changed, and no mark is live.
    pub fn new(alloc: Global) -> Journal
        ensures now { result.now ≡ empty }
        ensures last { result.last ≡ empty }
        ensures marks { result.marks ≡ [] }
    {
        Journal {
            alloc,
            store: Store::new(alloc),
            payload: Vec::new(alloc),
            spelling: Vec::new(alloc),
            sizes: Vec::new(alloc),
        }
    }

    /// The objects now.
    pub fn catalog(&self) -> &Catalog
        ensures { result.now.objects ≡ self.now.now.objects }
    {
        self.store.catalog()
    }

    /// The tables now.
    pub fn tables(&self) -> &Tables
        ensures { result.now.current ≡ self.now.now.tables }
    {
        self.store.tables()
    }

    /// What holds of the database at any time: the rows of each table keep its rules, their ids
    /// rise, and no two have the same key. It does nothing.
    pub fn is_sound(&self)
        ensures { IsSound self.now.now }
    {
        let _store = &self.store;
    }

    /// The operations since the last commit, spelled. Empty where nothing was changed.
    pub fn payload(&self) -> &[u8]
        ensures { LeadsTo result.now self.now.last self.now.now }
    {
        self.payload.as_slice()
    }

    /// Carries out a definition, whose own text this is. The SQLSTATE of a notice where it leaves
    /// all as it is.
    pub fn define(&mut self, definition: &Definition, text: Txt) -> Result<Option<State>, ScopeFail>
        requires text { definition_in text ≡ Some definition.now }
        ensures redefines { Redefines (redefined definition.now text self.old.now) result
            self.new.now }
        ensures err { OnErr result (self.new.now ≡ self.old.now) }
        ensures last { self.new.last ≡ self.old.last }
        ensures marks { self.new.marks ≡ self.old.marks }
    {
        define_object(
            self.alloc,
            &mut self.store,
            &mut self.payload,
            definition,
            text,
        )
    }

    /// Adds a row to the table of this name: PostgreSQL manual, "INSERT". 42P01 where there is no
    /// such table, 54000 where a text of the row is too long, then the rules that it breaks by
    /// itself, 23502 and 23514, then 54000 where the table is full, and 23505 where another row has
    /// a key of it.
    pub fn insert(&mut self, name: Name, row: Cells) -> Result<(), Unsettled>
        ensures leads { Leads (written self.old.now.objects name None row self.old.now.tables)
            result self.new.now.tables }
        ensures only { ChangesOnly name self.old self.new }
        ensures err { OnErr result (self.new.now ≡ self.old.now) }
    {
        insert_row(
            self.alloc,
            &mut self.store,
            &mut self.spelling,
            &mut self.payload,
            name,
            row,
        )
    }

    /// Puts the row in the place of the one of this id, in the table of this name: PostgreSQL
    /// manual, "UPDATE". It fails as `insert` does; a full table is no failure here.
    pub fn replace(&mut self, name: Name, id: u64, row: Cells) -> Result<(), Unsettled>
        requires there { IsSome (row_named name id self.old.now.tables) }
        ensures leads { Leads (written self.old.now.objects name (Some id) row
            self.old.now.tables) result self.new.now.tables }
        ensures only { ChangesOnly name self.old self.new }
        ensures err { OnErr result (self.new.now ≡ self.old.now) }
    {
        replace_row(
            self.alloc,
            &mut self.store,
            &mut self.spelling,
            &mut self.payload,
            name,
            id,
            row,
        )
    }

    /// Takes the row of this id out of the table of this name: PostgreSQL manual, "DELETE".
    pub fn remove(&mut self, name: Name, id: u64) -> Result<(), AllocError>
        requires there { IsSome (row_named name id self.old.now.tables) }
        ensures ok { OnOk result (self.new.now ≡ on_rows name (removed id) self.old.now) }
        ensures only { ChangesOnly name self.old self.new }
        ensures err { OnErr result (self.new.now ≡ self.old.now) }
    {
        remove_row(
            &mut self.store,
            &mut self.spelling,
            &mut self.payload,
            name,
            id,
        )
    }

    /// The database now becomes that of the last commit. No mark is live then.
    pub fn seal(&mut self)
        ensures now { self.new.now ≡ self.old.now }
        ensures last { self.new.last ≡ self.old.now }
        ensures marks { self.new.marks ≡ [] }
    {
        self.payload.clear();
        self.sizes.clear();
        self.store.seal();
    }

    /// Goes back to the last commit. No mark is live then.
    pub fn reset(&mut self)
        ensures now { self.new.now ≡ self.old.last }
        ensures last { self.new.last ≡ self.old.last }
        ensures marks { self.new.marks ≡ [] }
    {
        self.payload.clear();
        self.sizes.clear();
        self.store.reset();
    }
}
