//! Queries that are the same.

ghost use Rattle.std.specs.Prelude.{◌≡◌, true};

use crate::expressions::is_same_expr;
use crate::parts::{same_arguments, same_exprs, same_if_any};
use crate::words::{same_alias, same_flag, same_kind, same_name, same_nulls};
use pl_tree::{From, Item, Join, Key, Query};

/// Whether the queries are the same.
#[cycle(alike)]
pub fn is_same_query(a: &Query, b: &Query) -> bool
    ensures { result ≡ true → a.now ≡ b.now }
{
    if !same_flag(a.is_distinct, b.is_distinct) {
        return false;
    }
    if !same_items(a.items.as_slice(), b.items.as_slice()) {
        return false;
    }
    if !same_froms(a.from.as_slice(), b.from.as_slice()) {
        return false;
    }
    if !same_if_any(&a.condition, &b.condition) {
        return false;
    }
    if !same_exprs(a.groups.as_slice(), b.groups.as_slice()) {
        return false;
    }
    if !same_if_any(&a.having, &b.having) {
        return false;
    }
    if !same_keys(a.order.as_slice(), b.order.as_slice()) {
        return false;
    }
    if !same_if_any(&a.limit, &b.limit) {
        return false;
    }
    same_if_any(&a.offset, &b.offset)
}

#[cycle(alike)]
fn same_item(a: &Item, b: &Item) -> bool
    ensures { result ≡ true → a.now ≡ b.now }
{
    match (a, b) {
        (Item::All, Item::All) => true,
        (Item::AllOf(a), Item::AllOf(b)) => same_name(a, b),
        (
            Item::Value { value, label },
            Item::Value {
                value: other,
                label: other_label,
            },
        ) => same_alias(label, other_label) && is_same_expr(value, other),
        _ => false,
    }
}

#[cycle(alike)]
fn same_key(a: &Key, b: &Key) -> bool
    ensures { result ≡ true → a.now ≡ b.now }
{
    same_flag(a.is_descending, b.is_descending)
        && same_nulls(a.nulls, b.nulls)
        && is_same_expr(&a.value, &b.value)
}

// ---- FROM

#[cycle(alike)]
fn same_from(a: &From, b: &From) -> bool
    ensures { result ≡ true → a.now ≡ b.now }
{
    match a {
        From::Table { .. } => same_table(a, b),
        From::Function { .. } => same_function(a, b),
        From::Subquery { .. } => same_subquery(a, b),
        From::Joined { .. } => same_joined(a, b),
    }
}

fn same_table(a: &From, b: &From) -> bool
    ensures { result ≡ true → a.now ≡ b.now }
{
    match (a, b) {
        (
            From::Table { name, alias },
            From::Table {
                name: other,
                alias: other_alias,
            },
        ) => same_name(name, other) && same_alias(alias, other_alias),
        _ => false,
    }
}

#[cycle(alike)]
fn same_function(a: &From, b: &From) -> bool
    ensures { result ≡ true → a.now ≡ b.now }
{
    match (a, b) {
        (
            From::Function {
                name,
                arguments,
                alias,
            },
            From::Function {
                name: other,
                arguments: others,
                alias: other_alias,
            },
        ) => {
            same_name(name, other)
                && same_alias(alias, other_alias)
                && same_arguments(arguments.as_slice(), others.as_slice())
        }
        _ => false,
    }
}

#[cycle(alike)]
fn same_subquery(a: &From, b: &From) -> bool
    ensures { result ≡ true → a.now ≡ b.now }
{
    match (a, b) {
        (
            From::Subquery { query, alias },
            From::Subquery {
                query: other,
                alias: other_alias,
            },
        ) => same_alias(alias, other_alias) && is_same_query(query.get(), other.get()),
        _ => false,
    }
}

#[cycle(alike)]
fn same_joined(a: &From, b: &From) -> bool
    ensures { result ≡ true → a.now ≡ b.now }
{
    match (a, b) {
        (
            From::Joined { first, joins },
            From::Joined {
                first: other,
                joins: others,
            },
        ) => {
            same_from(first.get(), other.get()) && same_joins(joins.as_slice(), others.as_slice())
        }
        _ => false,
    }
}

#[cycle(alike)]
fn same_join(a: &Join, b: &Join) -> bool
    ensures { result ≡ true → a.now ≡ b.now }
{
    same_kind(a.kind, b.kind)
        && same_from(&a.with, &b.with)
        && same_if_any(&a.condition, &b.condition)
}

// ---- lists, one for one

#[cycle(alike)]
pub(crate) fn same_items(a: &[Item], b: &[Item]) -> bool
    ensures { result ≡ true → a.now ≡ b.now }
{
    let mut rest = b;
    for first in a {
        let Some((other, others)) = rest.split_first() else {
            return false;
        };
        if !same_item(first, other) {
            return false;
        }
        rest = others;
    }
    rest.is_empty()
}

#[cycle(alike)]
fn same_froms(a: &[From], b: &[From]) -> bool
    ensures { result ≡ true → a.now ≡ b.now }
{
    let mut rest = b;
    for first in a {
        let Some((other, others)) = rest.split_first() else {
            return false;
        };
        if !same_from(first, other) {
            return false;
        }
        rest = others;
    }
    rest.is_empty()
}

#[cycle(alike)]
fn same_keys(a: &[Key], b: &[Key]) -> bool
    ensures { result ≡ true → a.now ≡ b.now }
{
    let mut rest = b;
    for first in a {
        let Some((other, others)) = rest.split_first() else {
            return false;
        };
        if !same_key(first, other) {
            return false;
        }
        rest = others;
    }
    rest.is_empty()
}

#[cycle(alike)]
fn same_joins(a: &[Join], b: &[Join]) -> bool
    ensures { result ≡ true → a.now ≡ b.now }
{
    let mut rest = b;
    for first in a {
        let Some((other, others)) = rest.split_first() else {
            return false;
        };
        if !same_join(first, other) {
            return false;
        }
        rest = others;
    }
    rest.is_empty()
}
