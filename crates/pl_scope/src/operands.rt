//! What is made of operands that were read.

ghost use Rattle.pl_base.specs.declared.operator.Operator.TheVariants as kind;
ghost use Rattle.std.specs.Prelude.{Ok};
ghost use Rattle.pl_scope.specs.Following.{Follows};
ghost use Rattle.pl_scope.specs.Gathered as spec;
ghost use Rattle.pl_typing.specs.Cases as cases;
ghost use Rattle.pl_typing.specs.Operators as operators;
ghost use Rattle.pl_typing.specs.Resolved.{Gives};
ghost use Rattle.pl_typing.specs.Subqueries as subqueries;

use crate::Inner;
use pl_base::{Arithmetic, Boxed, Comparison, Operator, Test};
use pl_resolved::RExpr;
use pl_tree::Sign;
use pl_typing::{
    Arms, Run, ScopeFail, Typed, asked, between, compared, distinct, exists, in_query, like,
    limited, negated, null_if, scalar, signed, truth,
};
use std::alloc::Global;

// ---- one operand

/// The operand behind these signs, where it could be read.
pub(crate) fn signed_of(
    alloc: Global,
    signs: &[Sign],
    operand: Result<Typed, ScopeFail>,
) -> Result<Typed, ScopeFail>
    ensures { Follows operand (operators.signed signs.now) result }
{
    match operand {
        Ok(operand) => signed(alloc, signs, operand),
        Err(fail) => Err(fail),
    }
}

/// What IS asks of the operand, where that could be read.
pub(crate) fn asked_of(
    alloc: Global,
    is_negated: bool,
    operand: Result<Typed, ScopeFail>,
    test: Test,
) -> Result<Typed, ScopeFail>
    ensures { Follows operand (λ x. operators.asked is_negated x test) result }
{
    match operand {
        Ok(operand) => asked(alloc, is_negated, operand, test),
        Err(fail) => Err(fail),
    }
}

/// So many NOTs before the operand, where that could be read.
pub(crate) fn negated_of(
    alloc: Global,
    count: usize,
    operand: Result<Typed, ScopeFail>,
) -> Result<Typed, ScopeFail>
    ensures { Follows operand (operators.negated count) result }
{
    match operand {
        Ok(operand) => negated(alloc, count, operand),
        Err(fail) => Err(fail),
    }
}

// ---- queries inside

/// The value of the query, where it could be read.
pub(crate) fn scalar_of(alloc: Global, query: Result<Inner, ScopeFail>) -> Result<Typed, ScopeFail>
    ensures { Follows query (λ q. subqueries.scalar q.number q.heads) result }
{
    match query {
        Ok(query) => scalar(alloc, query.number, query.heads.as_slice()),
        Err(fail) => Err(fail),
    }
}

fn exists_at(alloc: Global, query: usize) -> Result<Typed, ScopeFail>
    ensures { Gives result (Ok (subqueries.exists query)) }
{
    Ok(exists(alloc, query)?)
}

/// EXISTS of the query, where it could be read.
pub(crate) fn exists_of(alloc: Global, query: Result<Inner, ScopeFail>) -> Result<Typed, ScopeFail>
    ensures { Follows query (λ q. Ok (subqueries.exists q.number)) result }
{
    match query {
        Ok(query) => exists_at(alloc, query.number),
        Err(fail) => Err(fail),
    }
}

/// IN with the query, where that could be read.
pub(crate) fn in_query_of(
    alloc: Global,
    is_negated: bool,
    operand: Typed,
    query: Result<Inner, ScopeFail>,
) -> Result<Typed, ScopeFail>
    ensures { Follows query (λ q. subqueries.in_query is_negated operand q.number q.heads) result }
{
    match query {
        Ok(query) => in_query(
            alloc,
            is_negated,
            operand,
            query.number,
            query.heads.as_slice(),
        ),
        Err(fail) => {
            drop(operand);
            Err(fail)
        }
    }
}

// ---- two operands

/// What two operands are read for.
#[derive(Drop)]
pub(crate) enum Two {
    NullIf,
    Like { is_negated: bool },
    Compare(Comparison),
    IsDistinct { is_negated: bool },
    /// The two are the bounds.
    Between { is_negated: bool, operand: Typed },
}

/// The expression that the two make.
pub(crate) fn two_by(alloc: Global, by: Two, left: Typed, right: Typed) -> Result<Typed, ScopeFail>
    ensures { Gives result (spec.two_by by left right) }
{
    match by {
        Two::NullIf => null_if(alloc, left, right),
        Two::Like { is_negated } => like(alloc, is_negated, left, right),
        Two::Compare(comparison) => compared(alloc, comparison, left, right),
        Two::IsDistinct { is_negated } => distinct(alloc, is_negated, left, right),
        Two::Between {
            is_negated,
            operand,
        } => between(alloc, is_negated, operand, left, right),
    }
}

/// The chain with one more operand, where that could be read.
pub(crate) fn step_by(
    alloc: Global,
    run: Run,
    by: Arithmetic,
    operand: Result<Typed, ScopeFail>,
) -> Result<Run, ScopeFail>
    ensures { Follows operand (operators.stepped (kind.Arithmetic by) run) result }
{
    match operand {
        Ok(operand) => run.step(alloc, Operator::Arithmetic(by), operand),
        Err(fail) => {
            drop(run);
            Err(fail)
        }
    }
}

// ---- what may be left out

fn truth_of_it(alloc: Global, condition: Option<Typed>) -> Result<Option<Boxed<RExpr>>, ScopeFail>
    ensures { Gives result (spec.truth_if condition) }
{
    match condition {
        None => Ok(None),
        Some(condition) => Ok(Some(truth(alloc, condition)?)),
    }
}

/// What was read as a condition.
pub(crate) fn truth_if(
    alloc: Global,
    condition: Result<Option<Typed>, ScopeFail>,
) -> Result<Option<Boxed<RExpr>>, ScopeFail>
    ensures { Follows condition spec.truth_if result }
{
    match condition {
        Ok(condition) => truth_of_it(alloc, condition),
        Err(fail) => Err(fail),
    }
}

fn limit_of_it(alloc: Global, count: Option<Typed>) -> Result<Option<Boxed<RExpr>>, ScopeFail>
    ensures { Gives result (spec.limit_if count) }
{
    match count {
        None => Ok(None),
        Some(count) => Ok(Some(limited(alloc, count)?)),
    }
}

/// What was read as the count of rows of LIMIT or OFFSET.
pub(crate) fn limit_if(
    alloc: Global,
    count: Result<Option<Typed>, ScopeFail>,
) -> Result<Option<Boxed<RExpr>>, ScopeFail>
    ensures { Follows count spec.limit_if result }
{
    match count {
        Ok(count) => limit_of_it(alloc, count),
        Err(fail) => Err(fail),
    }
}

/// CASE with its ELSE, where that could be read.
pub(crate) fn cased(
    alloc: Global,
    operand: Option<Boxed<RExpr>>,
    arms: Arms,
    otherwise: Result<Option<Typed>, ScopeFail>,
) -> Result<Typed, ScopeFail>
    ensures { Follows otherwise (cases.cased operand arms) result }
{
    match otherwise {
        Ok(otherwise) => arms.end(alloc, operand, otherwise),
        Err(fail) => {
            drop(operand);
            drop(arms);
            Err(fail)
        }
    }
}
