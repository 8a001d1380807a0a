//! What a rule makes of the parts that it reads.

ghost use Rattle.std.specs.Prelude.{◌≡◌, IfOk, map, reverse};
ghost use Rattle.pl_bodies.specs.declared.statement.LoopHead.TheVariants as head;
ghost use Rattle.pl_grammar.specs.Parser.{Makes};
ghost use Rattle.pl_body_grammar.specs.Trees as spec;

use pl_base::{Boxed, List, Name};
use pl_bodies::{Change, IntoClause, LoopHead, Simple, Target};
use pl_body_grammar::ForSource;
use pl_grammar::Fail;
use pl_tree::{Argument, Command, Expr, Item};
use std::alloc::{AllocError, Global};

// ---- changes

pub(crate) fn change_of(command: Command) -> Result<Change, Fail>
    ensures { Makes (spec.change_of command) result }
{
    match command {
        Command::Insert(insert) => Ok(Change::Insert(insert)),
        Command::Update(update) => Ok(Change::Update(update)),
        Command::Delete(delete) => Ok(Change::Delete(delete)),
        other => {
            drop(other);
            Err(Fail::Syntax)
        }
    }
}

fn returned(change: &Change) -> &List<Item>
    ensures { result.now ≡ spec.returned change.now }
{
    match change {
        Change::Insert(insert) => &insert.returning,
        Change::Update(update) => &update.returning,
        Change::Delete(delete) => &delete.returning,
    }
}

pub(crate) fn changed_of(change: Change, into: Option<IntoClause>) -> Result<Simple, Fail>
    ensures { Makes (spec.changed_of change into) result }
{
    if into.is_some() && returned(&change).is_empty() {
        drop(change);
        return Err(Fail::Syntax);
    }
    Ok(Simple::Change { change, into })
}

// ---- loops

fn is_value(argument: &Argument) -> bool
    ensures { result ≡ spec.is_value argument.now }
{
    matches!(argument, Argument::Value(_))
}

fn are_values(mut arguments: &[Argument]) -> bool
    ensures { result ≡ spec.are_values arguments.entry.now }
{
    while let [argument, rest @ ..] = arguments {
        if !is_value(argument) {
            return false;
        }
        arguments = rest;
    }
    true
}

fn value_in(argument: Argument) -> Expr
    ensures { result ≡ spec.value_in argument }
{
    match argument {
        Argument::Value(value) => value,
        Argument::FatalErrors(value) => value,
    }
}

// What the arguments have, the last one first.
#[tactic(auto, using(crate::proofs::Turned::map_turn))]
fn values_backwards(alloc: Global, mut arguments: List<Argument>) -> Result<List<Expr>, AllocError>
    ensures { IfOk result (λ xs. xs ≡ reverse (map spec.value_in arguments)) }
{
    let mut values = List::new(alloc);
    while let Some(argument) = arguments.pop() {
        values.push(value_in(argument))?;
    }
    Ok(values)
}

#[tactic(auto, using(crate::proofs::Turned::turn))]
fn turned(alloc: Global, mut values: List<Expr>) -> Result<List<Expr>, AllocError>
    ensures { IfOk result (λ xs. xs ≡ reverse values) }
{
    let mut turned = List::new(alloc);
    while let Some(value) = values.pop() {
        turned.push(value)?;
    }
    Ok(turned)
}

// What the arguments have, in their order.
fn values(alloc: Global, arguments: List<Argument>) -> Result<List<Expr>, AllocError>
    ensures { IfOk result (λ xs. xs ≡ map spec.value_in arguments) }
{
    let values = values_backwards(alloc, arguments)?;
    turned(alloc, values)
}

fn called_cursor(alloc: Global, cursor: Name, arguments: List<Argument>) -> Result<ForSource, Fail>
    ensures { Makes (spec.called_cursor cursor arguments) result }
{
    if arguments.is_empty() || !are_values(arguments.as_slice()) {
        return Err(Fail::Syntax);
    }
    let arguments = values(alloc, arguments)?;
    Ok(ForSource::Cursor { cursor, arguments })
}

#[tactic(auto, using(crate::proofs::Called::other_is))]
fn cursor_of(alloc: Global, called: Expr) -> Result<ForSource, Fail>
    ensures { Makes (spec.cursor_of called) result }
{
    match called {
        Expr::Name(cursor) => Ok(ForSource::Cursor {
            cursor,
            arguments: List::new(alloc),
        }),
        Expr::Call { name, arguments } => called_cursor(alloc, name, arguments),
        other => {
            drop(other);
            Err(Fail::Syntax)
        }
    }
}

/// The first number and the last, or a cursor where there is no last.
pub(crate) fn upward_of(
    alloc: Global,
    first: Expr,
    to: Option<(Expr, Option<Boxed<Expr>>)>,
) -> Result<ForSource, Fail>
    ensures { Makes (spec.upward_of first to) result }
{
    match to {
        None => cursor_of(alloc, first),
        Some((last, step)) => Ok(ForSource::Range {
            is_reverse: false,
            first,
            last,
            step,
        }),
    }
}

// The one name, if there is no other target and no qualifier.
fn one_name(targets: &[Target]) -> Option<Name>
    ensures { result ≡ spec.one_name targets.now }
{
    if targets.len() != 1 {
        return None;
    }
    match targets[0].qualifier {
        None => Some(targets[0].name),
        Some(_) => None,
    }
}

fn range_of(
    variable: Option<Name>,
    is_reverse: bool,
    first: Expr,
    last: Expr,
    step: Option<Boxed<Expr>>,
) -> Result<LoopHead, Fail>
    ensures { Makes (spec.for_one variable (λ n. head.Range n is_reverse first last step)) result }
{
    match variable {
        None => {
            drop(first);
            drop(last);
            Err(Fail::Syntax)
        }
        Some(variable) => Ok(LoopHead::Range {
            variable,
            is_reverse,
            first,
            last,
            step,
        }),
    }
}

fn over_cursor(
    variable: Option<Name>,
    cursor: Name,
    arguments: List<Expr>,
) -> Result<LoopHead, Fail>
    ensures { Makes (spec.for_one variable (λ n. head.Cursor n cursor arguments)) result }
{
    match variable {
        None => Err(Fail::Syntax),
        Some(variable) => Ok(LoopHead::Cursor {
            variable,
            cursor,
            arguments,
        }),
    }
}

pub(crate) fn for_of(targets: List<Target>, source: ForSource) -> Result<LoopHead, Fail>
    ensures { Makes (spec.for_of targets source) result }
{
    let variable = one_name(targets.as_slice());
    match source {
        ForSource::Rows(source) => Ok(LoopHead::Rows { targets, source }),
        ForSource::Range {
            is_reverse,
            first,
            last,
            step,
        } => range_of(variable, is_reverse, first, last, step),
        ForSource::Cursor { cursor, arguments } => over_cursor(variable, cursor, arguments),
    }
}
