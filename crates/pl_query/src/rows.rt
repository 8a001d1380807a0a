//! Rows that a query makes.

ghost use Rattle.std.specs.Prelude.{◌≡◌, [], ◌∷◌, ◌++◌, IfOk, OnOk};

use pl_base::Cells;
use std::alloc::{AllocError, Global};
use std::marker::Model;

/// Rows in their order. Contracts see the list alone.
#[derive(Drop)]
pub struct Rows {
    list: Vec<Cells>,
}

impl Model for Rows {
    ghost use Rattle.std.specs.Prelude.{List};
    ghost use Rattle.pl_base.specs.declared.value.Value as base;
    ghost use Rattle.pl_base.specs.contracts.value.Value as row;
    ghost use Rattle.std.specs.Coded.{codes};

    ghost Value = { List (List base.Value) };

    ghost coded = { Prim.hlevel (codes, row.the_row.coded) };

    ghost view = { λ rows. rows.list.items };
}

impl Rows {
    pub fn new(alloc: Global) -> Rows
        ensures { result ≡ [] }
    {
        Rows {
            list: Vec::new(alloc),
        }
    }

    /// No rows, with room for so many.
    pub fn with_room(alloc: Global, count: usize) -> Result<Rows, AllocError>
        ensures { IfOk result (λ rows. rows ≡ []) }
    {
        Ok(Rows {
            list: Vec::with_capacity(alloc, count)?,
        })
    }

    pub fn from_vec(list: Vec<Cells>) -> Rows
        ensures { result ≡ list.items }
    {
        Rows { list }
    }

    pub fn into_vec(self) -> Vec<Cells>
        ensures { result.items ≡ self }
    {
        let Rows { list } = self;
        list
    }

    /// Adds a row at the end.
    pub fn push(&mut self, row: Cells) -> Result<(), AllocError>
        ensures { OnOk result (self.new ≡ self.old ++ row ∷ []) }
    {
        self.list.push(row)?;
        Ok(())
    }
}
