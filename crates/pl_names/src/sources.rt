//! The items of a FROM, and `*`: PostgreSQL manual, "Table Expressions", "Select Lists".

ghost use Rattle.std.specs.Prelude.{◌≡◌, map, IfOk};
ghost use Rattle.std.specs.Option.{option_copied, option_map};
ghost use Rattle.pl_names.specs.Names.{around, reach};
ghost use Rattle.pl_names.specs.Sources as spec;
ghost use Rattle.pl_typing.specs.Resolved.{Gives};

use crate::{Level, Names, Source};
use pl_base::{List, Name, State, Ty};
use pl_catalog::{Column, TableDef};
use pl_resolved::{Head, RExpr, RJoin, RSource};
use pl_typing::{ScopeFail, Typed};
use std::alloc::{AllocError, Global};

/// The most columns of a select list.
pub const COLUMN_LIMIT: usize = 64;

/// An item of a FROM: what it joins, and the items whose columns may be named.
#[derive(Drop)]
pub struct Sourced {
    /// From left to right; at least one.
    pub joins: List<RJoin>,
    pub sources: List<Source>,
}

/// A select list as far as it has been read.
#[derive(Drop)]
pub struct Items {
    pub values: List<RExpr>,
    pub heads: List<Head>,
}

// ---- items of a FROM

fn one_source(
    alloc: Global,
    source: RSource,
    name: Name,
    columns: List<Head>,
    row: usize,
) -> Result<Sourced, AllocError>
    ensures { IfOk result (λ sourced. sourced ≡ spec.one_source source name columns row) }
{
    let mut joins = List::new(alloc);
    joins.push(RJoin {
        source,
        is_left: false,
        condition: None,
    })?;
    let mut sources = List::new(alloc);
    sources.push(Source { name, columns, row })?;
    Ok(Sourced { joins, sources })
}

fn name_or(alias: Option<Name>, name: Name) -> Name
    ensures { result ≡ spec.name_or alias name }
{
    match alias {
        None => name,
        Some(alias) => alias,
    }
}

fn head_of(column: &Column) -> Head
    ensures { result ≡ spec.head_of_column column.now }
{
    Head {
        name: column.name,
        ty: column.ty,
    }
}

fn heads_of(alloc: Global, columns: &[Column]) -> Result<List<Head>, AllocError>
    ensures { IfOk result (λ heads. heads ≡ map spec.head_of_column columns.now) }
{
    let mut heads = List::new(alloc);
    for column in columns {
        heads.push(head_of(column))?;
    }
    Ok(heads)
}

fn table_source(
    alloc: Global,
    table: &TableDef,
    name: Name,
    alias: Option<Name>,
    row: usize,
) -> Result<Sourced, AllocError>
    ensures { IfOk result (λ sourced. sourced ≡ spec.table_under table.now name alias row) }
{
    let columns = heads_of(alloc, table.columns.as_slice())?;
    let source = RSource::Table(name);
    one_source(alloc, source, name_or(alias, name), columns, row)
}

/// The table of this name as an item whose own row is the one of this number. 42P01 where there is
/// no such table.
pub fn table(
    alloc: Global,
    name: Name,
    alias: Option<Name>,
    row: usize,
    names: &Names<'_>,
) -> Result<Sourced, ScopeFail>
    ensures { Gives result (spec.table_of name alias row (around names.now)) }
{
    match names.catalog.table(name) {
        None => Err(ScopeFail::State(State::UNDEFINED_TABLE)),
        Some(table) => Ok(table_source(alloc, table, name, alias, row)?),
    }
}

/// The query of this number as an item.
pub fn derived(
    alloc: Global,
    number: usize,
    heads: List<Head>,
    alias: Option<Name>,
    row: usize,
) -> Result<Sourced, AllocError>
    ensures { IfOk result (λ sourced. sourced ≡ spec.derived number heads alias row) }
{
    let source = RSource::Query(number);
    one_source(alloc, source, name_or(alias, Name::NONE), heads, row)
}

/// A call of this function as an item: one column, which has the item's name.
pub fn valued(
    alloc: Global,
    call: Typed,
    name: Name,
    alias: Option<Name>,
    row: usize,
) -> Result<Sourced, AllocError>
    ensures { IfOk result (λ sourced. sourced ≡ spec.valued call name alias row) }
{
    let name = name_or(alias, name);
    let ty = match call.ty {
        Ty::Unknown => Ty::Text,
        ty => ty,
    };
    let mut columns = List::new(alloc);
    columns.push(Head { name, ty })?;
    one_source(alloc, RSource::Value(call.tree), name, columns, row)
}

// ---- names of items

fn is_named(name: Name, mut sources: &[Source]) -> bool
    ensures { result ≡ spec.is_named name sources.entry.now }
{
    while let [source, rest @ ..] = sources {
        if source.name == name {
            return true;
        }
        sources = rest;
    }
    false
}

fn is_some_name(name: Name) -> bool
    ensures { result ≡ spec.is_some_name name }
{
    !name.as_bytes().is_empty()
}

fn share_name(mut sources: &[Source], others: &[Source]) -> bool
    ensures { result ≡ spec.share_name sources.entry.now others.now }
{
    while let [source, rest @ ..] = sources {
        if is_some_name(source.name) && is_named(source.name, others) {
            return true;
        }
        sources = rest;
    }
    false
}

/// The items of both. 42712 where one of the second has the name of one of the first.
#[tactic(auto, unfolding(crate::specs::Sources::together))]
pub fn together(done: List<Source>, more: List<Source>) -> Result<List<Source>, ScopeFail>
    ensures { Gives result (spec.together done more) }
{
    if share_name(more.as_slice(), done.as_slice()) {
        return Err(ScopeFail::State(State::DUPLICATE_ALIAS));
    }
    let mut sources = done;
    sources.append(more)?;
    Ok(sources)
}

fn source_in(name: Name, mut sources: &[Source]) -> Option<&Source>
    ensures { option_copied result ≡ spec.source_in name sources.entry.now }
{
    while let [source, rest @ ..] = sources {
        if source.name == name {
            return Some(source);
        }
        sources = rest;
    }
    None
}

fn nearer_level<'a>(inner: Option<Level<'a>>, outer: Option<Level<'a>>) -> Option<Level<'a>>
    ensures { option_map reach result ≡ spec.nearer_level (option_map reach inner.entry)
        (option_map reach outer.entry) }
{
    match inner {
        None => outer,
        inner => inner,
    }
}

fn level_named<'a>(name: Name, level: Level<'a>) -> Option<Level<'a>>
    ensures { option_map reach result ≡ spec.level_named name (reach level.entry) }
{
    if is_named(name, level.sources.as_slice()) {
        Some(level)
    } else {
        None
    }
}

fn level_within<'a>(name: Name, mut levels: &[Level<'a>]) -> Option<Level<'a>>
    ensures { option_map reach result ≡ spec.level_within name (map reach levels.entry.now) }
{
    let mut found = None;
    while let [level, rest @ ..] = levels {
        found = nearer_level(level_named(name, *level), found);
        levels = rest;
    }
    found
}

// ---- select lists

impl Items {
    /// A select list without items.
    pub fn new(alloc: Global) -> Items
        ensures { result ≡ spec.no_items }
    {
        Items {
            values: List::new(alloc),
            heads: List::new(alloc),
        }
    }

    /// The list with one more item. 54011 where it has 64 already.
    pub fn with(self, value: RExpr, head: Head) -> Result<Items, ScopeFail>
        ensures { Gives result (spec.with_item self value head) }
    {
        let Items {
            mut values,
            mut heads,
        } = self;
        if heads.len() >= COLUMN_LIMIT {
            return Err(ScopeFail::State(State::TOO_MANY_COLUMNS));
        }
        values.push(value)?;
        heads.push(head)?;
        Ok(Items { values, heads })
    }
}

fn columns_on(items: Items, row: usize, heads: &[Head]) -> Result<Items, ScopeFail>
    ensures { Gives result (spec.columns_on items row 0 heads.now) }
{
    let mut items = items;
    let mut column = 0;
    let mut rest = heads;
    while let [head, more @ ..] = rest {
        items = items.with(RExpr::Place { row, column }, *head)?;
        column += 1;
        rest = more;
    }
    Ok(items)
}

fn all_columns(items: Items, mut sources: &[Source]) -> Result<Items, ScopeFail>
    ensures { Gives result (spec.all_columns items sources.entry.now) }
{
    let mut items = items;
    while let [source, rest @ ..] = sources {
        items = columns_on(items, source.row, source.columns.as_slice())?;
        sources = rest;
    }
    Ok(items)
}

/// `*`: the columns of all items, behind those there are. 42601 where there is no item, 54011 at
/// the 65th column.
pub fn every_column(items: Items, sources: &[Source]) -> Result<Items, ScopeFail>
    ensures { Gives result (spec.every_column items sources.now) }
{
    match sources {
        [] => Err(ScopeFail::State(State::SYNTAX_ERROR)),
        [_, ..] => all_columns(items, sources),
    }
}

fn columns_by(items: Items, source: Option<&Source>) -> Result<Items, ScopeFail>
    ensures { Gives result (spec.columns_by items (option_copied source.entry)) }
{
    match source {
        None => Err(ScopeFail::State(State::UNDEFINED_TABLE)),
        Some(source) => columns_on(items, source.row, source.columns.as_slice()),
    }
}

/// `name.*`: the columns of the nearest item of this name. 42P01 where there is none, 42P10 where
/// they may not be named here, 54011 at the 65th column.
#[tactic(auto, unfolding(crate::specs::Sources::columns_of))]
pub fn columns_of(items: Items, name: Name, names: &Names<'_>) -> Result<Items, ScopeFail>
    ensures { Gives result (spec.columns_of items name (around names.now)) }
{
    match level_within(name, names.levels) {
        None => Err(ScopeFail::State(State::UNDEFINED_TABLE)),
        Some(level) => {
            if level.is_barred {
                return Err(ScopeFail::State(State::INVALID_COLUMN_REFERENCE));
            }
            columns_by(items, source_in(name, level.sources.as_slice()))
        }
    }
}
