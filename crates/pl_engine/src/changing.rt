//! Changes of tables that run, and the rows that they write: PostgreSQL manual, "Data
//! Manipulation".

ghost use Rattle.std.specs.Prelude.{◌≡◌, ◌∷◌, drop, IsSome, None, Some, OnErr, OnOk};
ghost use Rattle.pl_engine.specs.Changing.{Wrote, without_change, without_row};
ghost use Rattle.pl_engine.specs.Engines.{kept, world};
ghost use Rattle.pl_world.specs.pl_journal.Writing.{written};
ghost use Rattle.pl_tables.specs.Named.{row_named};
ghost use Rattle.pl_world.specs.Changes.{while_changing};

use crate::engine::Engine;
use pl_base::{Cells, Name};
use pl_value::Unsettled;
use std::alloc::AllocError;

impl Engine {
    /// A change of this table begins to run.
    #[tactic(auto, using(crate::proofs::Turned::with_last))]
    pub fn begin_change(&mut self, table: Name) -> Result<(), AllocError>
        ensures is { OnOk result (world self.new ≡ while_changing table (world self.old)) }
        ensures keeps { OnOk result (kept self.new
            ≡ record (kept self.old) { changing = table ∷ (kept self.old).changing }) }
    {
        self.changing.push(table)?;
        Ok(())
    }

    /// The newest change runs no longer.
    #[tactic(auto, using(crate::proofs::Turned::without_last))]
    pub fn end_change(&mut self)
        ensures is { world self.new ≡ without_change (world self.old) }
        ensures keeps { kept self.new
            ≡ record (kept self.old) { changing = drop 1 (kept self.old).changing } }
    {
        self.changing.pop();
    }

    /// Adds a row to the table of this name: PostgreSQL manual, "INSERT". 42P01 where there is no
    /// such table, 54000 where a text of the row is too long, then the rules that it breaks by
    /// itself, 23502 and 23514, then 54000 where the table is full, and 23505 where another row has
    /// a key of it.
    pub fn insert(&mut self, table: Name, row: Cells) -> Result<(), Unsettled>
        ensures is { Wrote (written (world self.old).database.objects table None row
            (world self.old).database.tables) result (world self.old) (world self.new) }
        ensures keeps { kept self.new ≡ kept self.old }
    {
        self.journal.insert(table, row)
    }

    /// Puts the row in the place of the one of this id: PostgreSQL manual, "UPDATE". It fails as
    /// `insert` does; a full table is no failure here.
    pub fn replace(&mut self, table: Name, id: u64, row: Cells) -> Result<(), Unsettled>
        requires there { IsSome (row_named table id (world self.old).database.tables) }
        ensures is { Wrote (written (world self.old).database.objects table (Some id) row
            (world self.old).database.tables) result (world self.old) (world self.new) }
        ensures keeps { kept self.new ≡ kept self.old }
    {
        self.journal.replace(table, id, row)
    }

    /// Takes the row of this id out of the table: PostgreSQL manual, "DELETE".
    pub fn remove(&mut self, table: Name, id: u64) -> Result<(), AllocError>
        requires there { IsSome (row_named table id (world self.old).database.tables) }
        ensures is { OnOk result (world self.new ≡ without_row table id (world self.old)) }
        ensures err { OnErr result (world self.new ≡ world self.old) }
        ensures keeps { kept self.new ≡ kept self.old }
    {
        self.journal.remove(table, id)
    }
}
