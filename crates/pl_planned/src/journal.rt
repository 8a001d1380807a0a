//! A journal, and what was resolved over its objects.

ghost use Rattle.std.specs.Prelude.{◌≡◌, [], None, Some, IsSome, OnOk, OnErr};
ghost use Rattle.pl_journal.specs.Definitions.{redefined};
ghost use Rattle.pl_journal.specs.Journal.{ChangesOnly, Leads, Redefines};
ghost use Rattle.pl_journal.specs.Writing.{written};
ghost use Rattle.pl_journal.specs.pl_reading.Computed.{definition_in};
ghost use Rattle.pl_tables.specs.Named.{row_named};
ghost use Rattle.pl_tables.specs.Rows.{removed};
ghost use Rattle.pl_undo.specs.Database.{on_rows};

use pl_base::{Cells, Name, State, Txt};
use pl_journal::Journal;
use pl_plans::Plans;
use pl_plans::pl_typing::ScopeFail;
use pl_tree::Definition;
use pl_value::Unsettled;
use std::alloc::{AllocError, Global};
use std::marker::Model;

/// A journal, and what was resolved over its objects. Contracts see the journal alone.
#[derive(Drop)]
pub struct PlannedJournal {
    pub(crate) journal: Journal,
    pub(crate) plans: Plans,
    /// The number of a mark: at this one and at those behind it the objects were those of now.
    pub(crate) since: usize,
}

impl Model for PlannedJournal {
    ghost use Rattle.std.specs.Coded.{codes};
    ghost use Rattle.pl_base.specs.contracts.value.Value as value;
    ghost use Rattle.pl_catalog.specs.contracts.object.Object as object;
    ghost use Rattle.pl_planned.specs.Planned.{IsPlanned};
    ghost use Rattle.pl_undo.specs.Store.{Stored};

    ghost Value = { Stored };

    ghost coded = { Prim.hlevel (codes, value.the_row.coded, object.the_row.coded) };

    ghost view = { λ p. p.journal };

    ghost invariant = { λ p. IsPlanned p.plans p.since p.journal };
}

impl PlannedJournal {
    /// The journal, over whose objects nothing was resolved.
    pub fn new(alloc: Global, journal: Journal) -> PlannedJournal
        requires unmarked { journal.marks ≡ [] }
        ensures { result ≡ journal }
    {
        PlannedJournal {
            journal,
            plans: Plans::new(alloc),
            since: 0,
        }
    }

    /// The journal.
    pub fn journal(&self) -> &Journal
        ensures { result.now ≡ self.now }
    {
        &self.journal
    }

    /// As `Journal::define`. Nothing is kept of what was resolved before it.
    pub fn define(&mut self, definition: &Definition, text: Txt) -> Result<Option<State>, ScopeFail>
        requires text { definition_in text ≡ Some definition.now }
        ensures redefines { Redefines (redefined definition.now text self.old.now) result
            self.new.now }
        ensures err { OnErr result (self.new.now ≡ self.old.now) }
        ensures last { self.new.last ≡ self.old.last }
        ensures marks { self.new.marks ≡ self.old.marks }
    {
        self.plans.clear();
        self.since = self.journal.depth();
        self.journal.define(definition, text)
    }

    /// As `Journal::insert`.
    pub fn insert(&mut self, name: Name, row: Cells) -> Result<(), Unsettled>
        ensures leads { Leads (written self.old.now.objects name None row self.old.now.tables)
            result self.new.now.tables }
        ensures only { ChangesOnly name self.old self.new }
        ensures err { OnErr result (self.new.now ≡ self.old.now) }
    {
        self.journal.insert(name, row)
    }

    /// As `Journal::replace`.
    pub fn replace(&mut self, name: Name, id: u64, row: Cells) -> Result<(), Unsettled>
        requires there { IsSome (row_named name id self.old.now.tables) }
        ensures leads { Leads (written self.old.now.objects name (Some id) row
            self.old.now.tables) result self.new.now.tables }
        ensures only { ChangesOnly name self.old self.new }
        ensures err { OnErr result (self.new.now ≡ self.old.now) }
    {
        self.journal.replace(name, id, row)
    }

    /// As `Journal::remove`.
    pub fn remove(&mut self, name: Name, id: u64) -> Result<(), AllocError>
        requires there { IsSome (row_named name id self.old.now.tables) }
        ensures ok { OnOk result (self.new.now ≡ on_rows name (removed id) self.old.now) }
        ensures only { ChangesOnly name self.old self.new }
        ensures err { OnErr result (self.new.now ≡ self.old.now) }
    {
        self.journal.remove(name, id)
    }

    /// As `Journal::seal`. That `since` is lowered serves time alone, as in `release`.
    pub fn seal(&mut self)
        ensures now { self.new.now ≡ self.old.now }
        ensures last { self.new.last ≡ self.old.now }
        ensures marks { self.new.marks ≡ [] }
    {
        self.since = 0;
        self.journal.seal();
    }

    /// As `Journal::reset`. Nothing is kept of what was resolved before it. That `since` is lowered
    /// serves time alone, as in `release`.
    pub fn reset(&mut self)
        ensures now { self.new.now ≡ self.old.last }
        ensures last { self.new.last ≡ self.old.last }
        ensures marks { self.new.marks ≡ [] }
    {
        self.plans.clear();
        self.since = 0;
        self.journal.reset();
    }
}
