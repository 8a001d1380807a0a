//! Rows that are written while expressions are evaluated whose calls may change the same tables.

ghost use Rattle.std.specs.Prelude.{◌≡◌, IsSome, None, Some, OnErr, OnOk};
ghost use Rattle.pl_calling.specs.Writing.{WroteIn, without_row_in};
ghost use Rattle.pl_engine.specs.pl_journal.Writing.{written};
ghost use Rattle.pl_tables.specs.Named.{row_named};

use crate::calling::Calling;
use crate::start::Start;
use pl_base::{Cells, Name};
use pl_engine::BodyRunner;
use pl_engine::pl_journal::Journal;
use pl_value::Unsettled;
use std::alloc::AllocError;

impl<'r, B: Start, R: BodyRunner> Calling<'r, B, R> {
    /// The database as it is now.
    pub fn journal(&self) -> &Journal
        ensures { result.now.now ≡ self.now.world.database }
    {
        self.engine.journal()
    }

    /// Adds a row to the table of this name, by the table's rules.
    pub fn insert(&mut self, table: Name, row: Cells) -> Result<(), Unsettled>
        ensures { WroteIn (written self.old.world.database.objects table None row
            self.old.world.database.tables) result self.old self.new }
    {
        self.engine.insert(table, row)
    }

    /// Puts the row in the place of the one of this id, by the table's rules.
    pub fn replace(&mut self, table: Name, id: u64, row: Cells) -> Result<(), Unsettled>
        requires there { IsSome (row_named table id self.old.world.database.tables) }
        ensures { WroteIn (written self.old.world.database.objects table (Some id) row
            self.old.world.database.tables) result self.old self.new }
    {
        self.engine.replace(table, id, row)
    }

    /// Takes the row of this id out of the table.
    pub fn remove(&mut self, table: Name, id: u64) -> Result<(), AllocError>
        requires there { IsSome (row_named table id self.old.world.database.tables) }
        ensures is { OnOk result (self.new ≡ without_row_in table id self.old) }
        ensures err { OnErr result (self.new ≡ self.old) }
    {
        self.engine.remove(table, id)
    }
}
