//! The names of rules: PostgreSQL manual, "CREATE TABLE", of CONSTRAINT.

ghost use Rattle.std.specs.Prelude.{◌≡◌, ◌++◌, [], map, IfOk, OnOk};
ghost use Rattle.std.specs.Fmt.{decimal};
ghost use Rattle.std.specs.List.{list_any};
ghost use Rattle.pl_ddl.specs.Naming as spec;
ghost use Rattle.pl_ddl.specs.Refusals.{is_among};
ghost use Rattle.pl_ddl.specs.Views.{asked_view, rule_view};
ghost use Rattle.pl_assigning.specs.pl_typing.Resolved.{Gives};

use crate::refusals::is_among;
use crate::written::{Asked, NewRule};
use pl_assigning::pl_typing::ScopeFail;
use pl_base::{List, Name, State};
use pl_mentions::{Sought, mentions};
use pl_tree::Expr;
use std::alloc::{AllocError, Global};
use std::slice::from_ref;

/// The names of the rules of a table of these columns, in the order in which they are written:
/// those that are given, and for the others one that is free. 42710 where a name that is given is
/// taken, 42622 where one that is made is too long.
pub(crate) fn rule_names(
    alloc: Global,
    table: Name,
    columns: &[Name],
    mut rules: &[NewRule<'_>],
) -> Result<List<Name>, ScopeFail>
    ensures { Gives result
        (spec.names_from table columns.now [] (map rule_view rules.entry.now)) }
{
    let mut names = List::new(alloc);
    while let [rule, rest @ ..] = rules {
        let name = rule_name(alloc, table, columns, rule, names.as_slice())?;
        names.push(name)?;
        rules = rest;
    }
    Ok(names)
}

fn rule_name(
    alloc: Global,
    table: Name,
    columns: &[Name],
    rule: &NewRule<'_>,
    taken: &[Name],
) -> Result<Name, ScopeFail>
    ensures { Gives result (spec.rule_name table columns.now (rule_view rule.now) taken.now) }
{
    match rule.name {
        Some(name) => given_name(name, taken),
        None => made_name(alloc, table, columns, &rule.asks, taken),
    }
}

fn given_name(name: &Name, taken: &[Name]) -> Result<Name, ScopeFail>
    ensures { Gives result (spec.given_name name.now taken.now) }
{
    if is_among(name, taken) {
        Err(ScopeFail::State(State::DUPLICATE_OBJECT))
    } else {
        Ok(*name)
    }
}

fn made_name(
    alloc: Global,
    table: Name,
    columns: &[Name],
    asks: &Asked<'_>,
    taken: &[Name],
) -> Result<Name, ScopeFail>
    ensures { Gives result (spec.short (spec.free_name (spec.usual_name table columns.now
        (asked_view asks.now)) taken.now)) }
{
    let usual = usual_name(alloc, table, columns, asks)?;
    let name = free_name(alloc, usual, taken)?;
    match Name::from_bytes(name.as_slice()) {
        Some(name) => Ok(name),
        None => Err(ScopeFail::State(State::NAME_TOO_LONG)),
    }
}

// The name that a rule gets where it is free.
#[tactic(auto, using(crate::proofs::Lists::further))]
fn usual_name(
    alloc: Global,
    table: Name,
    columns: &[Name],
    asks: &Asked<'_>,
) -> Result<Vec<u8>, AllocError>
    ensures { IfOk result (λ name.
        name.items ≡ spec.usual_name table columns.now (asked_view asks.now)) }
{
    let mut name = Vec::from_slice(alloc, table.as_bytes())?;
    push_named(&mut name, table, columns, asks)?;
    name.extend_from_slice(ending(asks))?;
    Ok(name)
}

// The columns that are a part of the name.
fn push_named(
    name: &mut Vec<u8>,
    table: Name,
    columns: &[Name],
    asks: &Asked<'_>,
) -> Result<(), AllocError>
    ensures { OnOk result (name.new.items ≡ name.old.items
        ++ spec.underscored (spec.named_columns table columns.now (asked_view asks.now))) }
{
    match asks {
        Asked::Check(e) => push_only(name, table, columns, e),
        Asked::Primary(_) => Ok(()),
        Asked::Unique(key) => push_columns(name, key),
        Asked::Foreign(key) => push_columns(name, key),
    }
}

// The one column that the condition names.
fn push_only(name: &mut Vec<u8>, table: Name, columns: &[Name], e: &Expr) -> Result<(), AllocError>
    ensures { OnOk result (name.new.items ≡ name.old.items
        ++ spec.underscored (spec.only (spec.check_columns table columns.now e.now))) }
{
    push_columns(name, only_column(table, columns, e))
}

#[tactic(auto, using(crate::proofs::Only::not_this))]
fn only_column<'a>(table: Name, columns: &'a [Name], e: &Expr) -> &'a [Name]
    ensures { result.now ≡ spec.only (spec.check_columns table columns.now e.now) }
{
    let mut rest = columns;
    while let [column, more @ ..] = rest {
        if names_column(table, column, e) {
            if names_any(table, more, e) {
                return &[];
            }
            return from_ref(column);
        }
        rest = more;
    }
    &[]
}

fn names_any(table: Name, columns: &[Name], e: &Expr) -> bool
    ensures { result ≡ list_any (λ c. spec.names_column table e.now c) columns.now }
{
    columns.iter().any(|column| names_column(table, column, e))
}

fn names_column(table: Name, column: &Name, e: &Expr) -> bool
    ensures { result ≡ spec.names_column table e.now column.now }
{
    mentions(
        e,
        &Sought::Column {
            table,
            column: *column,
        },
    )
}

// Each column behind an underscore.
#[tactic(auto, using(crate::proofs::Lists::further))]
fn push_columns(name: &mut Vec<u8>, mut columns: &[Name]) -> Result<(), AllocError>
    ensures { OnOk result (name.new.items
        ≡ name.old.items ++ spec.underscored columns.entry.now) }
{
    while let [column, rest @ ..] = columns {
        name.extend_from_slice(b"_")?;
        name.extend_from_slice(column.as_bytes())?;
        columns = rest;
    }
    Ok(())
}

fn ending(asks: &Asked<'_>) -> &'static [u8]
    ensures { result.now ≡ spec.ending (asked_view asks.now) }
{
    match asks {
        Asked::Check(_) => b"_check",
        Asked::Primary(_) => b"_pkey",
        Asked::Unique(_) => b"_key",
        Asked::Foreign(_) => b"_fkey",
    }
}

// The name, with the first suffix with which it is free where it is taken.
fn free_name(alloc: Global, usual: Vec<u8>, taken: &[Name]) -> Result<Vec<u8>, AllocError>
    ensures { IfOk result (λ name. name.items ≡ spec.free_name usual.items taken.now) }
{
    if is_taken(usual.as_slice(), taken) {
        first_free(alloc, usual.as_slice(), taken)
    } else {
        Ok(usual)
    }
}

fn first_free(alloc: Global, usual: &[u8], taken: &[Name]) -> Result<Vec<u8>, AllocError>
    ensures { IfOk result (λ name.
        name.items ≡ spec.first_free usual.now taken.now taken.now 1) }
{
    let mut suffix = 1;
    let mut rest = taken;
    while let [_, more @ ..] = rest {
        let name = suffixed(alloc, usual, suffix)?;
        if !is_taken(name.as_slice(), taken) {
            return Ok(name);
        }
        suffix += 1;
        rest = more;
    }
    suffixed(alloc, usual, suffix)
}

fn suffixed(alloc: Global, usual: &[u8], suffix: usize) -> Result<Vec<u8>, AllocError>
    ensures { IfOk result (λ name. name.items ≡ usual.now ++ decimal suffix) }
{
    let mut name = Vec::from_slice(alloc, usual)?;
    name.extend_from_slice(format!(in alloc; "{suffix}")?.as_bytes())?;
    Ok(name)
}

fn is_taken(name: &[u8], taken: &[Name]) -> bool
    ensures { result ≡ is_among name.now taken.now }
{
    taken.iter().any(|other| other.as_bytes() == name)
}
