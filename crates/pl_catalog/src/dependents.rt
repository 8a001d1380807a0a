//! What keeps an object from being dropped.

ghost use Rattle.std.specs.Prelude.{◌≡◌};
ghost use Rattle.pl_catalog.specs.Dependents.{depends, first_dependent, gives_row_of, has_row_of};
ghost use Rattle.pl_catalog.specs.Dependents.{is_row_of, refers_to, takes_row_of};
ghost use Rattle.pl_catalog.specs.Entries.{there};

use crate::entries::Entry;
use crate::{Object, Routine, Rule, RuleKind, Which};
use pl_base::{Name, Ty};
use pl_tree::{Param, ResultType};

/// The name of the first object that needs this one. None where no object does.
pub(crate) fn first_dependent(mut entries: &[Entry], which: &Which) -> Option<Name>
    ensures { result ≡ first_dependent which.now (there entries.entry.now) }
{
    while let [entry, rest @ ..] = entries {
        if entry.is_there && depends(&entry.object, which) {
            return Some(entry.object.name());
        }
        entries = rest;
    }
    None
}

fn depends(object: &Object, which: &Which) -> bool
    ensures { result ≡ depends which.now object.now }
{
    match (which, object) {
        (Which::Table(name), Object::Table(table)) => {
            table.name != *name && any_refers_to(table.rules.as_slice(), name)
        }
        (Which::Table(name), Object::Routine(routine)) => has_row_of(routine, name),
        (Which::Routine(name), Object::Trigger(trigger)) => trigger.routine == *name,
        _ => false,
    }
}

fn any_refers_to(rules: &[Rule], name: &Name) -> bool
    ensures { result ≡ refers_to name.now rules.now }
{
    rules.iter().any(|rule| match &rule.kind {
        RuleKind::Foreign { table, .. } => *table == *name,
        RuleKind::Check(_) | RuleKind::Primary(_) | RuleKind::Unique(_) => false,
    })
}

fn has_row_of(routine: &Routine, name: &Name) -> bool
    ensures { result ≡ has_row_of name.now routine.now }
{
    takes_row_of(routine.heading.params.as_slice(), name)
        || gives_row_of(&routine.heading.result, name)
}

fn takes_row_of(params: &[Param], name: &Name) -> bool
    ensures { result ≡ takes_row_of name.now params.now }
{
    params.iter().any(|param| is_row_of(&param.ty, name))
}

fn gives_row_of(result_type: &ResultType, name: &Name) -> bool
    ensures { result ≡ gives_row_of name.now result_type.now }
{
    match result_type {
        ResultType::Absent => false,
        ResultType::One(ty) | ResultType::Set(ty) => is_row_of(ty, name),
        ResultType::Columns(columns) => takes_row_of(columns.as_slice(), name),
    }
}

fn is_row_of(ty: &Ty, name: &Name) -> bool
    ensures { result ≡ is_row_of name.now ty.now }
{
    match ty {
        Ty::Row(table) => *table == *name,
        _ => false,
    }
}
