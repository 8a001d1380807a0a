//! Tables that queries inside of others read: their rows are lent once for a statement.

ghost use Rattle.std.specs.Prelude.{◌≡◌, IfOk, IfSome};
ghost use Rattle.pl_query.specs.Kept.{AreKept, IsKept};
ghost use Rattle.pl_query.specs.Sources.{Tables as TablesOf, alone, frames};

use crate::Tables;
use pl_base::Name;
use pl_product::Bundles;
use pl_resolved::{RJoin, RQuery, RSource};
use std::alloc::{AllocError, Global};

/// The rows of a table.
#[derive(Drop)]
pub struct KeptTable<'t> {
    pub name: Name,
    pub bundles: Bundles<'t>,
}

/// The kept table of this name.
pub fn find<'s, 't>(kept: &'s [KeptTable<'t>], name: Name) -> Option<&'s KeptTable<'t>>
    ensures { IfSome result (λ k. (tables : TablesOf) → AreKept tables kept.now
        → k.now.bundles ≡ frames (alone (tables name))) }
{
    for table in kept {
        if table.name == name {
            return Some(table);
        }
    }
    None
}

fn is_table(source: &RSource, name: Name) -> bool {
    match source {
        RSource::Table(other) => *other == name,
        RSource::Query(_) | RSource::Value(_) | RSource::Joined(_) => false,
    }
}

// The only item of FROM is the table of this name.
fn is_from(joins: &[RJoin], name: Name) -> bool {
    match joins {
        [join] => is_table(&join.source, name),
        _ => false,
    }
}

// Keeps by which keys the query's WHERE finds the rows, if they are those of its only item of FROM.
fn find_by_where(
    alloc: Global,
    query: &RQuery,
    name: Name,
    fixed: usize,
    bundles: &mut Bundles<'_>,
) -> Result<(), AllocError>
    ensures { bundles.new ≡ bundles.old }
{
    let Some(condition) = &query.condition else {
        return Ok(());
    };
    if !is_from(query.from.as_slice(), name) {
        return Ok(());
    }
    bundles.find_by(alloc, condition.get(), fixed)
}

// The rows of a table, with the keys by which these queries find them.
fn keep_table<'t, T: Tables>(
    alloc: Global,
    tables: &'t T,
    queries: &[RQuery],
    name: Name,
    fixed: usize,
) -> Result<KeptTable<'t>, AllocError>
    ensures { IfOk result (λ k. IsKept (T.table tables.now) k) }
{
    let rows = tables.read(alloc, name)?;
    let mut bundles = Bundles::of_rows(alloc, rows);
    for query in queries {
        find_by_where(alloc, query, name, fixed, &mut bundles)?;
    }
    Ok(KeptTable { name, bundles })
}

// Keeps what an item of FROM reads, behind what is kept.
fn keep_source<'t, T: Tables>(
    alloc: Global,
    tables: &'t T,
    queries: &[RQuery],
    source: &RSource,
    fixed: usize,
    kept: Vec<KeptTable<'t>>,
) -> Result<Vec<KeptTable<'t>>, AllocError>
    requires { AreKept (T.table tables.now) kept.items }
    ensures { IfOk result (λ more. AreKept (T.table tables.now) more.items) }
{
    let RSource::Table(name) = source else {
        return Ok(kept);
    };
    if find(kept.as_slice(), *name).is_some() {
        return Ok(kept);
    }
    let table = keep_table(alloc, tables, queries, *name, fixed)?;
    let mut kept = kept;
    kept.push(table)?;
    Ok(kept)
}

// Keeps what the items of a FROM read.
fn keep_each<'t, T: Tables>(
    alloc: Global,
    tables: &'t T,
    queries: &[RQuery],
    joins: &[RJoin],
    fixed: usize,
    kept: Vec<KeptTable<'t>>,
) -> Result<Vec<KeptTable<'t>>, AllocError>
    requires { AreKept (T.table tables.now) kept.items }
    ensures { IfOk result (λ more. AreKept (T.table tables.now) more.items) }
{
    let mut kept = kept;
    for join in joins {
        match keep_source(alloc, tables, queries, &join.source, fixed, kept) {
            Ok(more) => kept = more,
            Err(no_memory) => return Err(no_memory),
        }
    }
    Ok(kept)
}

/// The tables that the queries read, with the keys by which their WHERE finds rows. The first
/// `fixed` rows stand around all of the queries: keys don't pay where the other value is theirs.
pub fn keep_all<'t, T: Tables>(
    alloc: Global,
    tables: &'t T,
    queries: &[RQuery],
    fixed: usize,
) -> Result<Vec<KeptTable<'t>>, AllocError>
    ensures { IfOk result (λ kept. AreKept (T.table tables.now) kept.items) }
{
    let mut kept = Vec::new(alloc);
    for query in queries {
        match keep_each(alloc, tables, queries, query.from.as_slice(), fixed, kept) {
            Ok(more) => kept = more,
            Err(no_memory) => return Err(no_memory),
        }
    }
    Ok(kept)
}
