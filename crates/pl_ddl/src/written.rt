//! A new table as its columns and its rules, each lent from the tree.

ghost use Rattle.std.specs.Prelude.{◌≡◌, ◌++◌, map, IfOk, OnOk};
ghost use Rattle.std.specs.List.{filter_map};
ghost use Rattle.std.specs.Option.{option_copied, option_map};
ghost use Rattle.pl_ddl.specs.Refusals as refusals;
ghost use Rattle.pl_ddl.specs.Views.{asked_view, column_view, rule_view};
ghost use Rattle.pl_ddl.specs.Written as spec;

use pl_base::{Name, Ty};
use pl_tree::{ColumnRule, ColumnRuleKind, Element, Expr, TableRule};
use std::alloc::{AllocError, Global};
use std::slice::from_ref;

/// A column, and the rules behind it.
#[derive(Clone, Copy)]
pub(crate) struct NewColumn<'a> {
    pub(crate) name: &'a Name,
    pub(crate) ty: &'a Ty,
    pub(crate) rules: &'a [ColumnRule],
}

/// What a rule of the table asks. Keys have the names of their columns.
#[derive(Clone, Copy)]
pub(crate) enum Asked<'a> {
    Check(&'a Expr),
    Primary(&'a [Name]),
    Unique(&'a [Name]),
    Foreign(&'a [Name]),
}

/// A rule, and its name where one is given.
#[derive(Clone, Copy)]
pub(crate) struct NewRule<'a> {
    pub(crate) name: &'a Option<Name>,
    pub(crate) asks: Asked<'a>,
}

/// The columns among the elements.
#[tactic(auto, using(crate::proofs::Lists::taken, crate::proofs::Lists::passed))]
pub(crate) fn columns_in<'a>(
    alloc: Global,
    mut elements: &'a [Element],
) -> Result<Vec<NewColumn<'a>>, AllocError>
    ensures { IfOk result (λ columns.
        map column_view columns.items ≡ spec.columns_in elements.entry.now) }
{
    let mut columns = Vec::new(alloc);
    while let [element, rest @ ..] = elements {
        match as_column(element) {
            Some(column) => columns.push(column)?,
            None => {}
        }
        elements = rest;
    }
    Ok(columns)
}

fn as_column<'a>(element: &'a Element) -> Option<NewColumn<'a>>
    ensures { option_map column_view result ≡ spec.as_column element.now }
{
    match element {
        Element::Column { name, ty, rules } => Some(NewColumn {
            name,
            ty,
            rules: rules.as_slice(),
        }),
        Element::Rule { .. } => None,
    }
}

/// The rules among the elements, and those behind columns.
#[tactic(auto, using(crate::proofs::Lists::further))]
pub(crate) fn rules_in<'a>(
    alloc: Global,
    mut elements: &'a [Element],
) -> Result<Vec<NewRule<'a>>, AllocError>
    ensures { IfOk result (λ rules. map rule_view rules.items ≡ spec.rules_in elements.entry.now) }
{
    let mut rules = Vec::new(alloc);
    while let [element, rest @ ..] = elements {
        add_rules(&mut rules, element)?;
        elements = rest;
    }
    Ok(rules)
}

#[tactic(auto, using(crate::proofs::Lists::pushed))]
fn add_rules<'a>(rules: &mut Vec<NewRule<'a>>, element: &'a Element) -> Result<(), AllocError>
    ensures { OnOk result (map rule_view rules.new.items
        ≡ map rule_view rules.old.items ++ spec.rules_of element.now) }
{
    match element {
        Element::Column {
            name,
            rules: behind,
            ..
        } => add_behind(rules, name, behind.as_slice()),
        Element::Rule { name, rule } => {
            rules.push(NewRule {
                name,
                asks: asked_by(rule),
            })?;
            Ok(())
        }
    }
}

// The rules behind a column that are the table's.
#[tactic(auto, using(crate::proofs::Lists::taken, crate::proofs::Lists::passed))]
fn add_behind<'a>(
    rules: &mut Vec<NewRule<'a>>,
    column: &'a Name,
    mut behind: &'a [ColumnRule],
) -> Result<(), AllocError>
    ensures { OnOk result (map rule_view rules.new.items
        ≡ map rule_view rules.old.items
        ++ filter_map (spec.rule_behind column.now) behind.entry.now) }
{
    while let [rule, rest @ ..] = behind {
        match rule_behind(column, rule) {
            Some(rule) => rules.push(rule)?,
            None => {}
        }
        behind = rest;
    }
    Ok(())
}

fn rule_behind<'a>(column: &'a Name, rule: &'a ColumnRule) -> Option<NewRule<'a>>
    ensures { option_map rule_view result ≡ spec.rule_behind column.now rule.now }
{
    match asked_behind(column, &rule.rule) {
        Some(asks) => Some(NewRule {
            name: &rule.name,
            asks,
        }),
        None => None,
    }
}

// What a rule behind a column asks of the table.
fn asked_behind<'a>(column: &'a Name, rule: &'a ColumnRuleKind) -> Option<Asked<'a>>
    ensures { option_map asked_view result ≡ spec.asked_behind column.now rule.now }
{
    match rule {
        ColumnRuleKind::NotNull => None,
        ColumnRuleKind::Null => None,
        ColumnRuleKind::Default(_) => None,
        ColumnRuleKind::Check(condition) => Some(Asked::Check(condition)),
        ColumnRuleKind::Unique => Some(Asked::Unique(from_ref(column))),
        ColumnRuleKind::PrimaryKey => Some(Asked::Primary(from_ref(column))),
        ColumnRuleKind::References { .. } => Some(Asked::Foreign(from_ref(column))),
    }
}

fn asked_by<'a>(rule: &'a TableRule) -> Asked<'a>
    ensures { asked_view result ≡ spec.asked_by rule.now }
{
    match rule {
        TableRule::Check(condition) => Asked::Check(condition),
        TableRule::Unique(columns) => Asked::Unique(columns.as_slice()),
        TableRule::PrimaryKey(columns) => Asked::Primary(columns.as_slice()),
        TableRule::ForeignKey { columns, .. } => Asked::Foreign(columns.as_slice()),
    }
}

/// The names of the columns.
#[tactic(auto, using(crate::proofs::Lists::pushed_one))]
pub(crate) fn names_of(
    alloc: Global,
    mut columns: &[NewColumn<'_>],
) -> Result<Vec<Name>, AllocError>
    ensures { IfOk result (λ names.
        names.items ≡ refusals.names_of (map column_view columns.entry.now)) }
{
    let mut names = Vec::new(alloc);
    while let [column, rest @ ..] = columns {
        names.push(*column.name)?;
        columns = rest;
    }
    Ok(names)
}

/// DEFAULT, which stands behind a column at most once.
pub(crate) fn default_in<'a>(mut rules: &'a [ColumnRule]) -> Option<&'a Expr>
    ensures { option_copied result ≡ spec.default_in rules.entry.now }
{
    while let [rule, rest @ ..] = rules {
        if let ColumnRuleKind::Default(e) = &rule.rule {
            return Some(e);
        }
        rules = rest;
    }
    None
}
