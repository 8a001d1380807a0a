//! Expressions, part by part.

ghost use Rattle.std.specs.Prelude.{map};
ghost use Rattle.std.specs.Option.{option_map};
ghost use Rattle.pl_names.specs.Names.{around};
ghost use Rattle.pl_scope.specs.Answers.{Meets};
ghost use Rattle.pl_scope.specs.Expressions as spec;
ghost use Rattle.pl_scope.specs.Following.{Continues};
ghost use Rattle.pl_scope.specs.Gathered as gathered;
ghost use Rattle.pl_scope.specs.Resolution as tree;
ghost use Rattle.pl_typing.specs.Calls.{no_arguments};
ghost use Rattle.pl_typing.specs.Cases.{no_arms};

use crate::Made;
use crate::collecting::{collect, count_rows};
use crate::entering::without_aggregates;
use crate::forms::{
    all_of, any_of, asked, between, case, cast, compared, concat, distinct, exists, in_list,
    in_query, like, negated, null_if, picked, product, row, scalar, signed, sum,
};
use crate::gathering::{Gathering, chain_of, gather, whole};
use crate::operands::{Two, step_by, truth_if, two_by};
use pl_base::{Boxed, Name, State, Ty};
use pl_names::{Names, called, named, parameter, qualified};
use pl_resolved::RExpr;
use pl_tree::{Argument, Arm, Expr, Factor, Term};
use pl_typing::{Arguments, Arms, Run, ScopeFail, Typed, aggregate_named, literal, tested};
use std::alloc::Global;

/// An expression where these names are sought, with what it makes.
#[cycle(resolving)]
pub fn expr(alloc: Global, e: &Expr, names: &Names<'_>, made: &mut Made) -> Result<Typed, ScopeFail>
    ensures { Meets ((tree.part e.now).means (around names.now) made.old) result made.new }
{
    match e {
        Expr::Literal(value) => literal(alloc, value),
        Expr::Parameter(number) => parameter(alloc, *number, names),
        Expr::Name(name) => named(alloc, *name, names),
        Expr::Qualified { qualifier, name } => qualified(alloc, *qualifier, *name, names),
        Expr::Call { name, arguments } => call(alloc, arguments.as_slice(), *name, names, made),
        Expr::CountRows => count_rows(alloc, names, made),
        Expr::Subquery(inner) => scalar(alloc, inner, names, made),
        Expr::Exists(inner) => exists(alloc, inner, names, made),
        Expr::Pick { pick, list } => picked(alloc, *pick, list.as_slice(), names, made),
        Expr::NullIf(left, right) => null_if(alloc, left, right, names, made),
        Expr::Row(list) => row(alloc, list.as_slice(), names, made),
        Expr::Case {
            operand,
            arms,
            otherwise,
        } => case(alloc, operand, arms.as_slice(), otherwise, names, made),
        Expr::Cast { operand, types } => cast(alloc, operand, types.as_slice(), names, made),
        Expr::Signed { signs, operand } => signed(alloc, signs.as_slice(), operand, names, made),
        Expr::Product { first, factors } => product(alloc, first, factors.as_slice(), names, made),
        Expr::Sum { first, terms } => sum(alloc, first, terms.as_slice(), names, made),
        Expr::Concat(list) => concat(alloc, list.as_slice(), names, made),
        Expr::Between {
            is_negated,
            operand,
            low,
            high,
        } => between(alloc, *is_negated, operand, low, high, names, made),
        Expr::InList {
            is_negated,
            operand,
            list,
        } => in_list(alloc, *is_negated, operand, list.as_slice(), names, made),
        Expr::InQuery {
            is_negated,
            operand,
            query: inner,
        } => in_query(alloc, *is_negated, operand, inner, names, made),
        Expr::Like {
            is_negated,
            operand,
            pattern,
        } => like(alloc, *is_negated, operand, pattern, names, made),
        Expr::Compare {
            comparison,
            left,
            right,
        } => compared(alloc, *comparison, left, right, names, made),
        Expr::Is {
            is_negated,
            operand,
            test,
        } => asked(alloc, *is_negated, operand, *test, names, made),
        Expr::IsDistinct {
            is_negated,
            left,
            right,
        } => distinct(alloc, *is_negated, left, right, names, made),
        Expr::Not { count, operand } => negated(alloc, *count, operand, names, made),
        Expr::And(list) => all_of(alloc, list.as_slice(), names, made),
        Expr::Or(list) => any_of(alloc, list.as_slice(), names, made),
    }
}

#[cycle(resolving)]
pub(crate) fn boxed(
    alloc: Global,
    e: &Boxed<Expr>,
    names: &Names<'_>,
    made: &mut Made,
) -> Result<Typed, ScopeFail>
    ensures { Meets ((tree.part e.now).means (around names.now) made.old) result made.new }
{
    expr(alloc, e.get(), names, made)
}

#[cycle(resolving)]
pub(crate) fn call(
    alloc: Global,
    arguments: &[Argument],
    name: Name,
    names: &Names<'_>,
    made: &mut Made,
) -> Result<Typed, ScopeFail>
    ensures { Meets (spec.call_of name (map tree.argument_part arguments.now) (around names.now)
        made.old) result made.new }
{
    match aggregate_named(&name) {
        None => {
            let all = arguments_on(alloc, arguments, names, made)?;
            called(alloc, name, all, names)
        }
        Some(kind) => {
            // The queries in the arguments are those from this number on.
            let since = made.queries.len();
            let all = arguments_on(alloc, arguments, &without_aggregates(names), made)?;
            collect(alloc, kind, all, name, since, names, made)
        }
    }
}

#[cycle(resolving)]
fn arguments_on(
    alloc: Global,
    list: &[Argument],
    names: &Names<'_>,
    made: &mut Made,
) -> Result<Arguments, ScopeFail>
    ensures { Meets (spec.arguments_on (map tree.argument_part list.now) no_arguments (around
        names.now) made.old) result made.new }
{
    let mut done = Arguments::new(alloc);
    for part in list {
        let typed = argument(alloc, part, names, made)?;
        done = done.with(typed)?;
    }
    Ok(done)
}

#[cycle(resolving)]
#[tactic(auto, using(crate::proofs::Equations::argument_equations))]
fn argument(
    alloc: Global,
    part: &Argument,
    names: &Names<'_>,
    made: &mut Made,
) -> Result<Typed, ScopeFail>
    ensures { Meets (tree.argument_part part.now (around names.now) made.old) result made.new }
{
    match part {
        Argument::Value(value) => expr(alloc, value, names, made),
        Argument::FatalErrors(value) => {
            expr(alloc, value, names, made)?;
            Err(ScopeFail::State(State::UNDEFINED_FUNCTION))
        }
    }
}

// What two parts make, of which the first has been read.
#[cycle(resolving)]
pub(crate) fn second(
    alloc: Global,
    right: &Boxed<Expr>,
    left: Result<Typed, ScopeFail>,
    by: Two,
    names: &Names<'_>,
    made: &mut Made,
) -> Result<Typed, ScopeFail>
    ensures { Continues left (λ x. gathered.second (tree.part right.now) by x (around names.now))
        made.old result made.new }
{
    match left {
        Ok(left) => {
            let right = boxed(alloc, right, names, made)?;
            two_by(alloc, by, left, right)
        }
        Err(fail) => {
            drop(by);
            Err(fail)
        }
    }
}

#[cycle(resolving)]
pub(crate) fn gathered_on(
    alloc: Global,
    list: &[Expr],
    first: Gathering,
    names: &Names<'_>,
    made: &mut Made,
) -> Result<Typed, ScopeFail>
    ensures { Meets (gathered.gather (map tree.part list.now) first (around names.now) made.old)
        result made.new }
{
    let mut done = first;
    for part in list {
        let next = expr(alloc, part, names, made);
        done = gather(alloc, done, next)?;
    }
    whole(alloc, done)
}

#[cycle(resolving)]
pub(crate) fn terms_on(
    alloc: Global,
    terms: &[Term],
    first: Run,
    names: &Names<'_>,
    made: &mut Made,
) -> Result<Typed, ScopeFail>
    ensures { Meets (gathered.chain_on (map tree.term_view terms.now) first (around names.now)
        made.old) result made.new }
{
    let mut run = first;
    for term in terms {
        let operand = expr(alloc, &term.operand, names, made);
        run = step_by(alloc, run, term.operator, operand)?;
    }
    chain_of(alloc, run)
}

#[cycle(resolving)]
pub(crate) fn factors_on(
    alloc: Global,
    factors: &[Factor],
    first: Run,
    names: &Names<'_>,
    made: &mut Made,
) -> Result<Typed, ScopeFail>
    ensures { Meets (gathered.chain_on (map tree.factor_view factors.now) first (around names.now)
        made.old) result made.new }
{
    let mut run = first;
    for factor in factors {
        let operand = expr(alloc, &factor.operand, names, made);
        run = step_by(alloc, run, factor.operator, operand)?;
    }
    chain_of(alloc, run)
}

#[cycle(resolving)]
pub(crate) fn maybe(
    alloc: Global,
    e: &Option<Boxed<Expr>>,
    names: &Names<'_>,
    made: &mut Made,
) -> Result<Option<Typed>, ScopeFail>
    ensures { Meets (spec.maybe (option_map tree.part e.now) (around names.now) made.old) result
        made.new }
{
    match e {
        None => Ok(None),
        Some(e) => Ok(Some(expr(alloc, e.get(), names, made)?)),
    }
}

/// A condition, where there is one. 42804 where it is none by its type.
#[cycle(resolving)]
pub fn maybe_condition(
    alloc: Global,
    e: &Option<Boxed<Expr>>,
    names: &Names<'_>,
    made: &mut Made,
) -> Result<Option<Boxed<RExpr>>, ScopeFail>
    ensures { Meets (spec.maybe_condition (option_map tree.part e.now) (around names.now)
        made.old) result made.new }
{
    let condition = maybe(alloc, e, names, made);
    truth_if(alloc, condition)
}

#[cycle(resolving)]
pub(crate) fn arms_on(
    alloc: Global,
    arms: &[Arm],
    operand: &Option<Ty>,
    names: &Names<'_>,
    made: &mut Made,
) -> Result<Arms, ScopeFail>
    ensures { Meets (spec.arms_on operand.now (map tree.arm_view arms.now) no_arms (around
        names.now) made.old) result made.new }
{
    let mut done = Arms::new(alloc);
    for arm in arms {
        let when = expr(alloc, &arm.when, names, made)?;
        let when = tested(alloc, operand, when)?;
        let then = expr(alloc, &arm.then, names, made)?;
        done = done.with(when, then)?;
    }
    Ok(done)
}
