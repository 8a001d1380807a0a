//! The tables that a statement reads, and what is kept of them while it runs.

ghost use Rattle.std.specs.Prelude.{◌≡◌, IfOk, IfSome, List, ℕ};
ghost use Rattle.pl_base.specs.declared.value.Value as base;
ghost use Rattle.pl_query.specs.LeftOut.{IsFew};
ghost use Rattle.pl_query.specs.Sources.{alone, frames};
ghost use Rattle.pl_value.specs.Frames.{rows_of};

use crate::Tables;
use crate::cache::{KeptTable, find, keep_all};
use crate::draws::Draw;
use pl_base::Name;
use pl_product::Bundles;
use pl_resolved::{RExpr, RQuery};
use pl_value::Lent;
use std::alloc::{AllocError, Global};
use std::marker::Model;

/// What lends the rows of tables to the queries of a statement.
pub trait Lender {
    /// The rows of the table of a name.
    ghost table: { Self → List ℕ → List (List base.Value) };

    /// The rows of the table of this name, as an item of FROM.
    fn draw_table<'s>(&'s self, alloc: Global, name: Name) -> Result<Draw<'s>, AllocError>
        ensures { IfOk result (λ d. d ≡ alone (table self.now name)) };

    /// The rows of the table of this name that the condition may pass behind the rows around, as an
    /// item of FROM, where they are found without the others. None where they aren't.
    fn draw_few<'s, 'e, C>(
        &'s self,
        alloc: Global,
        name: Name,
        condition: &'e RExpr,
        around: &[Lent<'e>],
    ) -> Result<Option<Draw<'s>>, AllocError>
        ensures { IfOk result (λ few. IfSome few (λ d. IsFew C condition.now (rows_of around.now)
            (table self.now name) d)) };

    /// The rows of the table of this name, where they are kept.
    fn kept_rows<'s>(&'s self, name: Name) -> Option<&'s Bundles<'s>>
        ensures { IfSome result (λ b. b.now ≡ frames (alone (table self.now name))) };
}

/// The tables, and the rows of those that queries inside of others read. Contracts see the tables
/// alone.
#[derive(Drop)]
pub struct Store<'t, T: Tables> {
    tables: &'t T,
    kept: Vec<KeptTable<'t>>,
}

impl<'t, T: Tables> Model for Store<'t, T> {
    ghost use Rattle.pl_query.specs.Kept.{AreKept};

    ghost Value = { T };

    ghost coded = { T.code };

    ghost view = { λ s. s.tables.now };

    ghost invariant = { λ s. AreKept (T.table s.tables.now) s.kept.items };
}

impl<'t, T: Tables> Store<'t, T> {
    /// The tables, where these queries are run once for each row of others. The first `fixed` rows
    /// stand around all of them.
    pub fn new(
        alloc: Global,
        tables: &'t T,
        queries: &[RQuery],
        fixed: usize,
    ) -> Result<Store<'t, T>, AllocError>
        ensures { IfOk result (λ store. store ≡ tables.now) }
    {
        let kept = keep_all(alloc, tables, queries, fixed)?;
        Ok(Store { tables, kept })
    }

    // The rows of the table of this name.
    fn draw<'s>(&'s self, alloc: Global, name: Name) -> Result<Draw<'s>, AllocError>
        ensures { IfOk result (λ d. d ≡ alone (T.table self.now name)) }
    {
        match find(self.kept.as_slice(), name) {
            Some(table) => Ok(Draw::of_kept(&table.bundles)),
            None => read_table(alloc, self.tables, name),
        }
    }

    // Its rows that the condition may pass. Where it is kept, they are found by what is kept.
    fn draw_for<'s, 'e, C>(
        &'s self,
        alloc: Global,
        name: Name,
        condition: &'e RExpr,
        around: &[Lent<'e>],
    ) -> Result<Option<Draw<'s>>, AllocError>
        ensures { IfOk result (λ few. IfSome few (λ d. IsFew C condition.now (rows_of around.now)
            (T.table self.now name) d)) }
    {
        match find(self.kept.as_slice(), name) {
            Some(_) => Ok(None),
            None => read_few::<C, T>(alloc, self.tables, name, condition, around),
        }
    }

    // Its rows, where they are kept.
    fn rows_kept<'s>(&'s self, name: Name) -> Option<&'s Bundles<'s>>
        ensures { IfSome result (λ b. b.now ≡ frames (alone (T.table self.now name))) }
    {
        match find(self.kept.as_slice(), name) {
            Some(table) => Some(&table.bundles),
            None => None,
        }
    }
}

impl<'t, T: Tables> Lender for Store<'t, T> {
    ghost table = { T.table };

    fn draw_table<'s>(&'s self, alloc: Global, name: Name) -> Result<Draw<'s>, AllocError> {
        self.draw(alloc, name)
    }

    fn draw_few<'s, 'e, C>(
        &'s self,
        alloc: Global,
        name: Name,
        condition: &'e RExpr,
        around: &[Lent<'e>],
    ) -> Result<Option<Draw<'s>>, AllocError> {
        self.draw_for::<C>(alloc, name, condition, around)
    }

    fn kept_rows<'s>(&'s self, name: Name) -> Option<&'s Bundles<'s>> {
        self.rows_kept(name)
    }
}

// The rows of a table that isn't kept.
fn read_table<'t, T: Tables>(
    alloc: Global,
    tables: &'t T,
    name: Name,
) -> Result<Draw<'t>, AllocError>
    ensures { IfOk result (λ d. d ≡ alone (T.table tables.now name)) }
{
    Ok(Draw::of_table(alloc, tables.read(alloc, name)?))
}

// Its rows that the condition may pass.
fn read_few<'t, 'e, C, T: Tables>(
    alloc: Global,
    tables: &'t T,
    name: Name,
    condition: &'e RExpr,
    around: &[Lent<'e>],
) -> Result<Option<Draw<'t>>, AllocError>
    ensures { IfOk result (λ few. IfSome few (λ d. IsFew C condition.now (rows_of around.now)
        (T.table tables.now name) d)) }
{
    match tables.read_for::<C>(alloc, name, condition, around)? {
        Some(rows) => Ok(Some(Draw::of_table(alloc, rows))),
        None => Ok(None),
    }
}
