//! The crate's three calls.

ghost use Rattle.std.specs.Prelude.{◌≡◌};
ghost use Rattle.pl_names.specs.Names.{around};
ghost use Rattle.pl_scope.specs.Answers.{got, Meets};
ghost use Rattle.pl_scope.specs.Steps.{plain_in};
ghost use Rattle.pl_targets.specs.Changes as spec;
ghost use Rattle.pl_assigning.specs.pl_typing.Resolved.{Gives};

use crate::columns::places_of;
use crate::values::{end_of, rows_of, settings_of};
use crate::{RChange, RWhat};
use pl_assigning::pl_typing::ScopeFail;
use pl_base::{List, Name, State};
use pl_catalog::{Catalog, Column};
use pl_names::{Items, Level, Names, Scope, Source, Sourced, table};
use pl_scope::{Made, behind, entered, inside, items_on, maybe_condition};
use pl_tree::{Delete, Insert, Item, Update};
use std::alloc::Global;

/// A change, without the queries that are made beside it.
#[derive(Drop)]
pub struct Changed {
    pub(crate) what: RWhat,
    /// RETURNING
    pub(crate) items: Items,
}

// The table as the one item of a FROM.
fn target(
    alloc: Global,
    name: Name,
    alias: Option<Name>,
    names: &Names<'_>,
) -> Result<List<Source>, ScopeFail>
    ensures { Gives result (spec.target_of name alias (around names.now)) }
{
    let row = behind(names.next_row, 1)?;
    let Sourced {
        joins: _joins,
        sources,
    } = table(alloc, name, alias, row, names)?;
    Ok(sources)
}

// ---- DELETE

fn delete_in(
    alloc: Global,
    d: &Delete,
    sources: &[Source],
    names: &Names<'_>,
    made: &mut Made,
) -> Result<Changed, ScopeFail>
    ensures { Meets (spec.delete_in d.now sources.now (around names.now) made.old) result made.new }
{
    let condition = maybe_condition(alloc, &d.condition, names, made)?;
    let items = items_on(alloc, d.returning.as_slice(), sources, names, made)?;
    Ok(Changed {
        what: RWhat::Delete { condition },
        items,
    })
}

fn delete(
    alloc: Global,
    d: &Delete,
    names: &Names<'_>,
    made: &mut Made,
) -> Result<Changed, ScopeFail>
    ensures { Meets (spec.delete_means d.now (around names.now) made.old) result made.new }
{
    let Some(_table) = names.catalog.table(d.table) else {
        return Err(ScopeFail::State(State::UNDEFINED_TABLE));
    };
    let sources = target(alloc, d.table, d.alias, names)?;
    let end = end_of(names, sources.as_slice())?;
    let levels = entered(alloc, names.levels, &sources, false)?;
    let inner = inside(
        names.catalog,
        names.scope,
        levels.as_slice(),
        end,
        names.next_row,
        false,
    );
    delete_in(alloc, d, sources.as_slice(), &inner, made)
}

// ---- UPDATE

fn update_in(
    alloc: Global,
    u: &Update,
    columns: &[Column],
    sources: &[Source],
    names: &Names<'_>,
    made: &mut Made,
) -> Result<Changed, ScopeFail>
    ensures { Meets (spec.update_in u.now columns.now sources.now (around names.now) made.old)
        result made.new }
{
    let set = settings_of(alloc, u.assignments.as_slice(), columns, names, made)?;
    let condition = maybe_condition(alloc, &u.condition, names, made)?;
    let items = items_on(alloc, u.returning.as_slice(), sources, names, made)?;
    Ok(Changed {
        what: RWhat::Update {
            columns: set.columns,
            values: set.values,
            condition,
        },
        items,
    })
}

fn update_on(
    alloc: Global,
    u: &Update,
    columns: &[Column],
    sources: &List<Source>,
    names: &Names<'_>,
    made: &mut Made,
) -> Result<Changed, ScopeFail>
    ensures { Meets (spec.update_on u.now columns.now sources.now (around names.now) made.old)
        result made.new }
{
    let end = end_of(names, sources.as_slice())?;
    let levels = entered(alloc, names.levels, &*sources, false)?;
    let inner = inside(
        names.catalog,
        names.scope,
        levels.as_slice(),
        end,
        names.next_row,
        false,
    );
    update_in(alloc, u, columns, sources.as_slice(), &inner, made)
}

fn update(
    alloc: Global,
    u: &Update,
    names: &Names<'_>,
    made: &mut Made,
) -> Result<Changed, ScopeFail>
    ensures { Meets (spec.update_means u.now (around names.now) made.old) result made.new }
{
    let Some(table) = names.catalog.table(u.table) else {
        return Err(ScopeFail::State(State::UNDEFINED_TABLE));
    };
    let sources = target(alloc, u.table, u.alias, names)?;
    update_on(alloc, u, table.columns.as_slice(), &sources, names, made)
}

// ---- INSERT

fn returning(
    alloc: Global,
    list: &[Item],
    sources: &List<Source>,
    names: &Names<'_>,
    made: &mut Made,
) -> Result<Items, ScopeFail>
    ensures { Meets (spec.returning list.now sources.now (plain_in sources.now (around names.now))
        made.old) result made.new }
{
    let end = end_of(names, sources.as_slice())?;
    let levels = entered(alloc, names.levels, &*sources, false)?;
    let inner = inside(
        names.catalog,
        names.scope,
        levels.as_slice(),
        end,
        names.next_row,
        false,
    );
    items_on(alloc, list, sources.as_slice(), &inner, made)
}

fn insert_on(
    alloc: Global,
    i: &Insert,
    columns: &[Column],
    sources: &List<Source>,
    names: &Names<'_>,
    made: &mut Made,
) -> Result<Changed, ScopeFail>
    ensures { Meets (spec.insert_on i.now columns.now sources.now (around names.now) made.old)
        result made.new }
{
    let list = i.columns.as_slice();
    let listed = places_of(alloc, State::DUPLICATE_COLUMN, list, columns)?;
    let rows = rows_of(alloc, &i.rows, list, listed, columns, names, made)?;
    let items = returning(alloc, i.returning.as_slice(), sources, names, made)?;
    Ok(Changed {
        what: RWhat::Insert(rows),
        items,
    })
}

fn insert(
    alloc: Global,
    i: &Insert,
    names: &Names<'_>,
    made: &mut Made,
) -> Result<Changed, ScopeFail>
    ensures { Meets (spec.insert_means i.now (around names.now) made.old) result made.new }
{
    let Some(table) = names.catalog.table(i.table) else {
        return Err(ScopeFail::State(State::UNDEFINED_TABLE));
    };
    let sources = target(alloc, i.table, i.alias, names)?;
    insert_on(alloc, i, table.columns.as_slice(), &sources, names, made)
}

// ---- the calls

fn whole(table: Name, changed: Changed, made: Made) -> RChange
    ensures { spec.as_change table (got changed made) ≡ Ok result }
{
    let Changed { what, items } = changed;
    let Items { values, heads } = items;
    RChange {
        table,
        queries: made.queries,
        what,
        returning: values,
        heads,
    }
}

/// The INSERT with places in place of names. 42P01 where there is no such table; of its columns
/// 42703 where there is none of a name and 42701 where one comes twice; 42601 where there are more
/// or fewer values than columns, 42804 where a value can't be assigned to its column; else the
/// SQLSTATE of the first failing node in reading order.
pub fn resolve_insert(
    alloc: Global,
    catalog: &Catalog,
    scope: &Scope,
    i: &Insert,
) -> Result<RChange, ScopeFail>
    ensures { Gives result (spec.resolved_insert catalog.now.objects scope.now i.now) }
{
    let none: [Level<'_>; 0] = [];
    let mut made = Made::new(alloc);
    let names = inside(catalog, scope, &none, 1, 1, false);
    let changed = insert(alloc, i, &names, &mut made)?;
    Ok(whole(i.table, changed, made))
}

/// The UPDATE with places in place of names. 42P01 where there is no such table; of what it sets,
/// from left to right, 42703 where there is no column of the name and 42601 where it is set twice,
/// then its value, and 42804 where that can't be assigned to the column; else the SQLSTATE of the
/// first failing node in reading order.
pub fn resolve_update(
    alloc: Global,
    catalog: &Catalog,
    scope: &Scope,
    u: &Update,
) -> Result<RChange, ScopeFail>
    ensures { Gives result (spec.resolved_update catalog.now.objects scope.now u.now) }
{
    let none: [Level<'_>; 0] = [];
    let mut made = Made::new(alloc);
    let names = inside(catalog, scope, &none, 1, 1, false);
    let changed = update(alloc, u, &names, &mut made)?;
    Ok(whole(u.table, changed, made))
}

/// The DELETE with places in place of names. 42P01 where there is no such table; else the SQLSTATE
/// of the first failing node in reading order.
pub fn resolve_delete(
    alloc: Global,
    catalog: &Catalog,
    scope: &Scope,
    d: &Delete,
) -> Result<RChange, ScopeFail>
    ensures { Gives result (spec.resolved_delete catalog.now.objects scope.now d.now) }
{
    let none: [Level<'_>; 0] = [];
    let mut made = Made::new(alloc);
    let names = inside(catalog, scope, &none, 1, 1, false);
    let changed = delete(alloc, d, &names, &mut made)?;
    Ok(whole(d.table, changed, made))
}
