//! What a rule makes of the parts that it reads.

ghost use Rattle.std.specs.Prelude.{◌≡◌};
ghost use Rattle.pl_grammar.specs.Parser.{Makes};
ghost use Rattle.pl_sql_parse.specs.Trees as spec;

use crate::parts::Clause;
use pl_base::{Held, List, Name, Txt, Ty};
use pl_expr_parse::may_have;
use pl_grammar::Fail;
use pl_tree::{
    Argument, ColumnRule, ColumnRuleKind, Command, Definition, Element, NewRoutine, Param,
    ResultType, RoutineKind,
};
use std::alloc::Global;

/// A call. Syntax where an argument is named that may not be.
#[tactic(auto, unfolding(crate::specs::Trees::call_of))]
pub(crate) fn call_of(name: Name, arguments: List<Argument>) -> Result<Command, Fail>
    ensures { Makes (spec.call_of name arguments) result }
{
    if !may_have(name, arguments.as_slice()) {
        return Err(Fail::Syntax);
    }
    Ok(Command::Call { name, arguments })
}

fn is_default(rule: &ColumnRuleKind) -> bool
    ensures { result ≡ spec.is_default rule.now }
{
    matches!(rule, ColumnRuleKind::Default(_))
}

// Whether one of the rules is a default.
fn has_default(mut rules: &[ColumnRule]) -> bool
    ensures { result ≡ spec.has_default rules.entry.now }
{
    while let [rule, rest @ ..] = rules {
        if is_default(&rule.rule) {
            return true;
        }
        rules = rest;
    }
    false
}

// Whether at most one of the rules is a default.
fn defaults_once(mut rules: &[ColumnRule]) -> bool
    ensures { result ≡ spec.defaults_once rules.entry.now }
{
    while let [rule, rest @ ..] = rules {
        if is_default(&rule.rule) {
            return !has_default(rest);
        }
        rules = rest;
    }
    true
}

/// A column. Syntax where more than one of its rules is a default.
pub(crate) fn column_of(name: Name, ty: Ty, rules: List<ColumnRule>) -> Result<Element, Fail>
    ensures { Makes (spec.column_of name ty rules) result }
{
    if !defaults_once(rules.as_slice()) {
        return Err(Fail::Syntax);
    }
    Ok(Element::Column { name, ty, rules })
}

// Whether no clause names a language.
fn has_no_language(mut clauses: &[Clause]) -> bool
    ensures { result ≡ spec.is_none (spec.languages clauses.entry.now) }
{
    while let [clause, rest @ ..] = clauses {
        if let Clause::Language(_) = clause {
            return false;
        }
        clauses = rest;
    }
    true
}

// The language that a clause names. Syntax where two do.
fn language_of(alloc: Global, mut clauses: &[Clause]) -> Result<Option<Txt>, Fail>
    ensures { Makes (spec.at_most_one (spec.languages clauses.entry.now)) result }
{
    while let [clause, rest @ ..] = clauses {
        if let Clause::Language(name) = clause {
            if !has_no_language(rest) {
                return Err(Fail::Syntax);
            }
            return Ok(Some(name.copy(alloc)?));
        }
        clauses = rest;
    }
    Ok(None)
}

// Whether no clause has a body.
fn has_no_body(mut clauses: &[Clause]) -> bool
    ensures { result ≡ spec.is_none (spec.bodies clauses.entry.now) }
{
    while let [clause, rest @ ..] = clauses {
        if let Clause::Body(_) = clause {
            return false;
        }
        clauses = rest;
    }
    true
}

// The body that a clause has. Syntax where two do.
fn body_of(alloc: Global, mut clauses: &[Clause]) -> Result<Option<Txt>, Fail>
    ensures { Makes (spec.at_most_one (spec.bodies clauses.entry.now)) result }
{
    while let [clause, rest @ ..] = clauses {
        if let Clause::Body(text) = clause {
            if !has_no_body(rest) {
                return Err(Fail::Syntax);
            }
            return Ok(Some(text.copy(alloc)?));
        }
        clauses = rest;
    }
    Ok(None)
}

/// What CREATE FUNCTION or CREATE PROCEDURE says. Syntax where LANGUAGE or AS stands twice.
#[tactic(auto, unfolding(crate::specs::Trees::routine_of))]
pub(crate) fn routine_of(
    alloc: Global,
    or_replace: bool,
    kind: RoutineKind,
    name: Name,
    params: List<Param>,
    returned: ResultType,
    clauses: List<Clause>,
) -> Result<Definition, Fail>
    ensures { Makes (spec.routine_of or_replace kind name params returned clauses) result }
{
    let returned = Held::new(returned);
    let language = language_of(alloc, clauses.as_slice())?;
    let body = body_of(alloc, clauses.as_slice())?;
    Ok(Definition::CreateRoutine(NewRoutine {
        or_replace,
        kind,
        name,
        params,
        result: returned.into_inner(),
        language,
        body,
    }))
}
