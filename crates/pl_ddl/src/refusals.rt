//! What is wrong with the columns and the keys of a new table.

ghost use Rattle.std.specs.Prelude.{◌≡◌, map};
ghost use Rattle.std.specs.List.{list_all};
ghost use Rattle.pl_catalog.specs.Objects.{tables_in};
ghost use Rattle.pl_ddl.specs.Refusals as spec;
ghost use Rattle.pl_ddl.specs.Views.{asked_view, column_view, rule_view};
ghost use Rattle.pl_ddl.specs.Written as written;

use crate::written::{Asked, NewColumn, NewRule};
use pl_base::{Name, State, Ty};
use pl_catalog::Catalog;
use pl_tree::{ColumnRule, ColumnRuleKind};

/// The most columns of a table.
const COLUMN_LIMIT: usize = 64;

/// The first refusal of the columns, of these names, and of the keys: where there is no column,
/// 42601; of a column its type, 42704, 42P16 or 0A000, or NULL beside NOT NULL or PRIMARY KEY,
/// 42601; a name of two columns, 42701; over 64 columns, 54011; two primary keys, 42P16; in a key a
/// column that isn't there, 42703, or one that stands twice, 42701; a foreign key, 0A000. None where
/// nothing is wrong.
pub(crate) fn table_refusal(
    catalog: &Catalog,
    columns: &[NewColumn<'_>],
    names: &[Name],
    rules: &[NewRule<'_>],
) -> Option<State>
    ensures { result ≡ spec.table_refusal (tables_in catalog.now.objects)
        (map column_view columns.now) names.now (map rule_view rules.now) }
{
    if names.is_empty() {
        return Some(State::SYNTAX_ERROR);
    }
    if let Some(state) = columns_refusal(catalog, columns) {
        return Some(state);
    }
    if has_twin(names) {
        return Some(State::DUPLICATE_COLUMN);
    }
    if names.len() > COLUMN_LIMIT {
        return Some(State::TOO_MANY_COLUMNS);
    }
    rules_refusal(names, rules)
}

// The first refusal of the keys.
fn rules_refusal(names: &[Name], rules: &[NewRule<'_>]) -> Option<State>
    ensures { result ≡ spec.rules_refusal names.now (map rule_view rules.now) }
{
    if has_two_primary(rules) {
        return Some(State::INVALID_TABLE_DEFINITION);
    }
    if let Some(state) = keys_refusal(names, rules) {
        return Some(state);
    }
    if any_foreign(rules) {
        return Some(State::FEATURE_NOT_SUPPORTED);
    }
    None
}

// ---- columns

fn columns_refusal(catalog: &Catalog, mut columns: &[NewColumn<'_>]) -> Option<State>
    ensures { result ≡ spec.columns_refusal (tables_in catalog.now.objects)
        (map column_view columns.entry.now) }
{
    while let [column, rest @ ..] = columns {
        if let Some(state) = column_refusal(catalog, column) {
            return Some(state);
        }
        columns = rest;
    }
    None
}

fn column_refusal(catalog: &Catalog, column: &NewColumn<'_>) -> Option<State>
    ensures { result
        ≡ spec.column_refusal (tables_in catalog.now.objects) (column_view column.now) }
{
    if let Some(state) = type_refusal(catalog, column.ty) {
        return Some(state);
    }
    if is_torn(column.rules) {
        return Some(State::SYNTAX_ERROR);
    }
    None
}

fn type_refusal(catalog: &Catalog, ty: &Ty) -> Option<State>
    ensures { result ≡ spec.type_refusal (tables_in catalog.now.objects) ty.now }
{
    match ty {
        Ty::Int | Ty::Big | Ty::Text | Ty::Bool => None,
        Ty::Row(name) => match catalog.table(*name) {
            Some(_) => Some(State::FEATURE_NOT_SUPPORTED),
            None => Some(State::UNDEFINED_OBJECT),
        },
        Ty::Unknown | Ty::Rec | Ty::Void | Ty::Trigger => Some(State::INVALID_TABLE_DEFINITION),
    }
}

// Whether there is NULL beside NOT NULL or PRIMARY KEY.
fn is_torn(rules: &[ColumnRule]) -> bool
    ensures { result ≡ spec.is_torn rules.now }
{
    says_null(rules) && (says_not_null(rules) || is_key(rules))
}

fn says_null(rules: &[ColumnRule]) -> bool
    ensures { result ≡ written.any_behind written.says_null rules.now }
{
    rules.iter().any(|rule| is_null(&rule.rule))
}

fn is_null(rule: &ColumnRuleKind) -> bool
    ensures { result ≡ written.says_null rule.now }
{
    matches!(rule, ColumnRuleKind::Null)
}

/// Whether NOT NULL is among the rules behind a column.
pub(crate) fn says_not_null(rules: &[ColumnRule]) -> bool
    ensures { result ≡ written.any_behind written.says_not_null rules.now }
{
    rules.iter().any(|rule| is_not_null(&rule.rule))
}

fn is_not_null(rule: &ColumnRuleKind) -> bool
    ensures { result ≡ written.says_not_null rule.now }
{
    matches!(rule, ColumnRuleKind::NotNull)
}

fn is_key(rules: &[ColumnRule]) -> bool
    ensures { result ≡ written.any_behind written.is_key rules.now }
{
    rules.iter().any(|rule| is_primary_key(&rule.rule))
}

fn is_primary_key(rule: &ColumnRuleKind) -> bool
    ensures { result ≡ written.is_key rule.now }
{
    matches!(rule, ColumnRuleKind::PrimaryKey)
}

/// Whether the name is among these.
pub(crate) fn is_among(name: &Name, names: &[Name]) -> bool
    ensures { result ≡ spec.is_among name.now names.now }
{
    names.iter().any(|other| *other == *name)
}

// Whether each of the first names is among the others.
fn are_among(names: &[Name], others: &[Name]) -> bool
    ensures { result ≡ list_all (λ name. spec.is_among name others.now) names.now }
{
    names.iter().all(|name| is_among(name, others))
}

// Whether one of the names stands twice.
fn has_twin(mut names: &[Name]) -> bool
    ensures { result ≡ spec.has_twin names.entry.now }
{
    while let [name, rest @ ..] = names {
        if is_among(name, rest) {
            return true;
        }
        names = rest;
    }
    false
}

// ---- keys

// Whether there are two primary keys.
fn has_two_primary(mut rules: &[NewRule<'_>]) -> bool
    ensures { result ≡ spec.has_two_primary (map rule_view rules.entry.now) }
{
    while let [rule, rest @ ..] = rules {
        if is_primary(&rule.asks) {
            return has_primary(rest);
        }
        rules = rest;
    }
    false
}

fn has_primary(mut rules: &[NewRule<'_>]) -> bool
    ensures { result ≡ spec.has_primary (map rule_view rules.entry.now) }
{
    while let [rule, rest @ ..] = rules {
        if is_primary(&rule.asks) {
            return true;
        }
        rules = rest;
    }
    false
}

fn any_foreign(mut rules: &[NewRule<'_>]) -> bool
    ensures { result ≡ spec.any_foreign (map rule_view rules.entry.now) }
{
    while let [rule, rest @ ..] = rules {
        if is_foreign(&rule.asks) {
            return true;
        }
        rules = rest;
    }
    false
}

fn is_primary(asks: &Asked<'_>) -> bool
    ensures { result ≡ spec.is_primary (asked_view asks.now) }
{
    match asks {
        Asked::Primary(_) => true,
        Asked::Check(_) => false,
        Asked::Unique(_) => false,
        Asked::Foreign(_) => false,
    }
}

fn is_foreign(asks: &Asked<'_>) -> bool
    ensures { result ≡ spec.is_foreign (asked_view asks.now) }
{
    match asks {
        Asked::Foreign(_) => true,
        Asked::Check(_) => false,
        Asked::Primary(_) => false,
        Asked::Unique(_) => false,
    }
}

fn keys_refusal(names: &[Name], mut rules: &[NewRule<'_>]) -> Option<State>
    ensures { result ≡ spec.keys_refusal names.now (map rule_view rules.entry.now) }
{
    while let [rule, rest @ ..] = rules {
        if let Some(state) = key_refusal(names, key_columns(&rule.asks)) {
            return Some(state);
        }
        rules = rest;
    }
    None
}

fn key_refusal(names: &[Name], key: &[Name]) -> Option<State>
    ensures { result ≡ spec.key_refusal names.now key.now }
{
    if !are_among(key, names) {
        return Some(State::UNDEFINED_COLUMN);
    }
    if has_twin(key) {
        return Some(State::DUPLICATE_COLUMN);
    }
    None
}

fn key_columns<'a>(asked: &Asked<'a>) -> &'a [Name]
    ensures { result.now ≡ spec.key_columns (asked_view asked.now) }
{
    match asked {
        Asked::Check(_) => &[],
        Asked::Primary(columns) => *columns,
        Asked::Unique(columns) => *columns,
        Asked::Foreign(columns) => *columns,
    }
}
