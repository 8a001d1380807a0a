//! The objects and their names.

ghost use Rattle.std.specs.Prelude.{◌≡◌, ◌∷◌, ◌++◌, ◌-◌, [], length, take, OnOk, OnErr};
ghost use Rattle.std.specs.Option.{option_copied};
ghost use Rattle.pl_history.specs.History.{last_or};
ghost use Rattle.pl_catalog.specs.Objects.{exchanged, routine_named, routines_in};
ghost use Rattle.pl_catalog.specs.Objects.{table_named, tables_in, which_of, without};
ghost use Rattle.pl_catalog.specs.Refusals.{Answers, add_refusal, drop_refusal, replace_refusal};

use crate::dependents::first_dependent;
use crate::entries::{
    Entry, Step, bring_back, give_back, place_of, pop_entry, purge, routine_among, swap_object,
    table_among, take_out,
};
use crate::{Object, Objects, Routine, TableDef, Which};
use pl_base::{Held, Name};
use std::alloc::{AllocError, Global};
use std::marker::Model;

/// Why the catalogue isn't changed.
#[derive(Clone, Copy)]
pub enum CatalogFail {
    /// An object of that kind has the name already.
    Taken,
    /// There is no such object.
    Absent,
    /// Another object needs the one that was to be dropped: the first one that does.
    Dependent { name: Name },
    Memory,
}

impl From<AllocError> for CatalogFail {
    ghost use Rattle.std.specs.Prelude.{◌≡◌};
    ghost use Rattle.pl_catalog.specs.declared.catalog.CatalogFail.TheVariants.{Memory};

    ghost from_gives = { λ _ fail. fail ≡ Memory };

    fn from(_: AllocError) -> Self {
        CatalogFail::Memory
    }
}

/// The objects in the order in which they were created, and what is needed to undo changes.
#[derive(Drop)]
pub struct Catalog {
    entries: Vec<Entry>,
    steps: Vec<Step>,
}

impl Model for Catalog {
    ghost use Rattle.std.specs.Prelude.{map};
    ghost use Rattle.std.specs.Coded.{codes};
    ghost use Rattle.pl_history.specs.History.{past_of};
    ghost use Rattle.pl_catalog.specs.Entries.{there, undo_step};
    ghost use Rattle.pl_catalog.specs.Objects.{Catalogue};
    ghost use Rattle.pl_catalog.specs.contracts.object.Object as object;

    ghost Value = { Catalogue };

    ghost coded = { Prim.hlevel (codes, object.the_row.coded) };

    ghost view = { λ c. record {
      objects = there c.entries.items;
      past = map there (past_of undo_step c.steps.items c.entries.items);
    } };
}

impl Catalog {
    /// A catalogue without objects.
    pub fn new(alloc: Global) -> Catalog
        ensures objects { result.objects ≡ [] }
        ensures past { result.past ≡ [] }
    {
        Catalog {
            entries: Vec::new(alloc),
            steps: Vec::new(alloc),
        }
    }

    /// How many changes can be undone.
    pub fn changes(&self) -> usize
        ensures { result ≡ length self.now.past }
    {
        self.steps.len()
    }

    /// Lends the objects one after the other, in the order in which they were created.
    pub fn objects(&self) -> Objects<'_>
        ensures { result ≡ self.now.objects }
    {
        Objects::new(self.entries.as_slice())
    }

    /// The table of this name. None where there is none.
    pub fn table(&self, name: Name) -> Option<&TableDef>
        ensures { option_copied result ≡ table_named name (tables_in self.now.objects) }
    {
        table_among(self.entries.as_slice(), name)
    }

    /// The routine of this name. None where there is none.
    pub fn routine(&self, name: Name) -> Option<&Routine>
        ensures { option_copied result ≡ routine_named name (routines_in self.now.objects) }
    {
        routine_among(self.entries.as_slice(), name)
    }

    /// Adds the object behind the others. Taken where one of its kind has its name.
    pub fn add(&mut self, object: Object) -> Result<(), CatalogFail>
        ensures answers { Answers result (add_refusal (which_of object) self.old.objects) }
        ensures ok { OnOk result (self.new.objects ≡ self.old.objects ++ object ∷ []) }
        ensures past { OnOk result (self.new.past ≡ self.old.past ++ self.old.objects ∷ []) }
        ensures err { OnErr result (self.new ≡ self.old) }
    {
        let object = Held::new(object);
        if place_of(self.entries.as_slice(), &object.get().which()).is_some() {
            return Err(CatalogFail::Taken);
        }
        self.steps.reserve(1)?;
        self.entries.reserve(1)?;
        self.entries.push_reserved(Entry {
            object: object.into_inner(),
            is_there: true,
        });
        self.steps.push_reserved(Step::Added);
        Ok(())
    }

    /// Puts the object in the place of the one of its kind and name. Absent where none is there.
    pub fn replace(&mut self, object: Object) -> Result<(), CatalogFail>
        ensures answers { Answers result (replace_refusal (which_of object) self.old.objects) }
        ensures ok { OnOk result (self.new.objects
            ≡ exchanged (which_of object) object self.old.objects) }
        ensures past { OnOk result (self.new.past ≡ self.old.past ++ self.old.objects ∷ []) }
        ensures err { OnErr result (self.new ≡ self.old) }
    {
        let object = Held::new(object);
        match place_of(self.entries.as_slice(), &object.get().which()) {
            None => Err(CatalogFail::Absent),
            Some(at) => {
                self.steps.reserve(1)?;
                let old = swap_object(&mut self.entries, at, object.into_inner());
                self.steps.push_reserved(Step::Replaced { at, old });
                Ok(())
            }
        }
    }

    /// Takes out this one object; a table's triggers stay. Absent where it isn't there, Dependent
    /// where another object needs it.
    pub fn drop_object(&mut self, which: Which) -> Result<(), CatalogFail>
        ensures answers { Answers result (drop_refusal which self.old.objects) }
        ensures ok { OnOk result (self.new.objects ≡ without which self.old.objects) }
        ensures past { OnOk result (self.new.past ≡ self.old.past ++ self.old.objects ∷ []) }
        ensures err { OnErr result (self.new ≡ self.old) }
    {
        match place_of(self.entries.as_slice(), &which) {
            None => Err(CatalogFail::Absent),
            Some(at) => match first_dependent(self.entries.as_slice(), &which) {
                Some(name) => Err(CatalogFail::Dependent { name }),
                None => {
                    self.steps.reserve(1)?;
                    take_out(&mut self.entries, at);
                    self.steps.push_reserved(Step::Dropped(at));
                    Ok(())
                }
            },
        }
    }

    /// Undoes the newest change, if there is one.
    pub fn undo(&mut self)
        ensures objects { self.new.objects ≡ last_or self.old.objects self.old.past }
        ensures past { self.new.past ≡ take (length self.old.past - 1) self.old.past }
    {
        match self.steps.pop() {
            Some(Step::Added) => pop_entry(&mut self.entries),
            Some(Step::Dropped(at)) => bring_back(&mut self.entries, at),
            Some(Step::Replaced { at, old }) => give_back(&mut self.entries, at, old),
            None => {}
        }
    }

    /// No change can be undone from now on. Frees what was dropped or replaced.
    pub fn forget(&mut self)
        ensures objects { self.new.objects ≡ self.old.objects }
        ensures past { self.new.past ≡ [] }
    {
        self.steps.clear();
        purge(&mut self.entries);
    }
}
