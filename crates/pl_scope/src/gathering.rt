//! What is made of the expressions of a list, one after the other.

ghost use Rattle.std.specs.Prelude.{◌∷◌, ◌++◌, [], Ok};
ghost use Rattle.pl_resolved.specs.declared.expression.RExpr.TheVariants as resolved;
ghost use Rattle.pl_scope.specs.Expressions as expressions;
ghost use Rattle.pl_scope.specs.Following.{Follows, after};
ghost use Rattle.pl_scope.specs.Gathered as spec;
ghost use Rattle.pl_typing.specs.Calls as calls;
ghost use Rattle.pl_typing.specs.Operators as operators;
ghost use Rattle.pl_typing.specs.Resolved.{Gives};
ghost use Rattle.pl_typing.specs.Typing as typing;

use pl_base::{List, Operator, State};
use pl_resolved::RExpr;
use pl_tree::Pick;
use pl_typing::{Arguments, Listed, Run, ScopeFail, Typed, in_list, picked, row, truth, truth_of};
use std::alloc::Global;

/// What the expressions of a list are read for, with those that have been read.
#[derive(Drop)]
pub(crate) enum Gathering {
    /// COALESCE, GREATEST or LEAST
    Pick { pick: Pick, all: Listed },
    /// The operand of IN, and the list behind it.
    InList { is_negated: bool, all: Listed },
    Row(Arguments),
    /// `||`
    Concat(Option<Run>),
    And(List<RExpr>),
    Or(List<RExpr>),
}

fn joined_to(alloc: Global, done: Option<Run>, operand: Typed) -> Result<Run, ScopeFail>
    ensures { Gives result (expressions.joined_to done operand) }
{
    match done {
        None => Ok(Run::new(alloc, operand)),
        Some(run) => run.step(alloc, Operator::Concatenate, operand),
    }
}

fn with_condition(
    alloc: Global,
    done: List<RExpr>,
    condition: Typed,
) -> Result<List<RExpr>, ScopeFail>
    ensures { Gives result (after (typing.truth condition) (λ t. done ++ t ∷ [])) }
{
    let mut done = done;
    let condition = truth(alloc, condition)?;
    done.push(condition.into_inner())?;
    Ok(done)
}

/// With one more expression.
fn gathered_with(alloc: Global, done: Gathering, next: Typed) -> Result<Gathering, ScopeFail>
    ensures { Gives result (spec.gathered_with done next) }
{
    match done {
        Gathering::Pick { pick, all } => Ok(Gathering::Pick {
            pick,
            all: all.with(next)?,
        }),
        Gathering::InList { is_negated, all } => Ok(Gathering::InList {
            is_negated,
            all: all.with(next)?,
        }),
        Gathering::Row(all) => Ok(Gathering::Row(all.with(next)?)),
        Gathering::Concat(run) => Ok(Gathering::Concat(Some(joined_to(alloc, run, next)?))),
        Gathering::And(list) => Ok(Gathering::And(with_condition(alloc, list, next)?)),
        Gathering::Or(list) => Ok(Gathering::Or(with_condition(alloc, list, next)?)),
    }
}

/// With one more expression, where it could be read.
pub(crate) fn gather(
    alloc: Global,
    done: Gathering,
    next: Result<Typed, ScopeFail>,
) -> Result<Gathering, ScopeFail>
    ensures { Follows next (spec.gathered_with done) result }
{
    match next {
        Ok(next) => gathered_with(alloc, done, next),
        Err(fail) => {
            drop(done);
            Err(fail)
        }
    }
}

fn ended_if(alloc: Global, done: Option<Run>) -> Result<Typed, ScopeFail>
    ensures { Gives result (expressions.ended_if done) }
{
    match done {
        None => Err(ScopeFail::State(State::SYNTAX_ERROR)),
        Some(run) => chain_of(alloc, run),
    }
}

/// The chain as a whole.
pub(crate) fn chain_of(alloc: Global, run: Run) -> Result<Typed, ScopeFail>
    ensures { Gives result (Ok (operators.ended run)) }
{
    Ok(run.end(alloc)?)
}

fn row_of(alloc: Global, fields: Arguments) -> Result<Typed, ScopeFail>
    ensures { Gives result (Ok (calls.row_of fields)) }
{
    Ok(row(alloc, fields)?)
}

fn and_of(alloc: Global, list: List<RExpr>) -> Result<Typed, ScopeFail>
    ensures { Gives result (Ok (typing.truth_of (resolved.And list))) }
{
    Ok(truth_of(alloc, RExpr::And(list))?)
}

fn or_of(alloc: Global, list: List<RExpr>) -> Result<Typed, ScopeFail>
    ensures { Gives result (Ok (typing.truth_of (resolved.Or list))) }
{
    Ok(truth_of(alloc, RExpr::Or(list))?)
}

/// The expression that all of them make.
pub(crate) fn whole(alloc: Global, done: Gathering) -> Result<Typed, ScopeFail>
    ensures { Gives result (spec.whole done) }
{
    match done {
        Gathering::Pick { pick, all } => picked(alloc, pick, all),
        Gathering::InList { is_negated, all } => in_list(alloc, is_negated, all),
        Gathering::Row(all) => row_of(alloc, all),
        Gathering::Concat(run) => ended_if(alloc, run),
        Gathering::And(list) => and_of(alloc, list),
        Gathering::Or(list) => or_of(alloc, list),
    }
}
