//! The forms of expressions: each is read by a function of its own, so that none needs room for the
//! others.

ghost use Rattle.std.specs.Prelude.{map};
ghost use Rattle.std.specs.Option.{option_map};
ghost use Rattle.pl_names.specs.Names.{around};
ghost use Rattle.pl_scope.specs.Answers.{Meets};
ghost use Rattle.pl_scope.specs.Expressions as spec;
ghost use Rattle.pl_scope.specs.Resolution as tree;
ghost use Rattle.pl_typing.specs.Operators as operators;

use crate::Made;
use crate::casting::cast_known;
use crate::expressions::{arms_on, boxed, factors_on, gathered_on, maybe, second, terms_on};
use crate::gathering::{Gathering, gather};
use crate::operands::{
    Two, asked_of, cased, exists_of, in_query_of, negated_of, scalar_of, signed_of,
};
use crate::queries::query;
use pl_base::{Boxed, Comparison, List, Test, Ty};
use pl_names::Names;
use pl_tree::{Arm, Expr, Factor, Pick, Query, Sign, Term};
use pl_typing::{Arguments, Listed, Run, ScopeFail, Typed, operand_type, tree_of};
use std::alloc::Global;

// ---- one operand

#[cycle(resolving)]
pub(crate) fn cast(
    alloc: Global,
    operand: &Boxed<Expr>,
    types: &[Ty],
    names: &Names<'_>,
    made: &mut Made,
) -> Result<Typed, ScopeFail>
    ensures { Meets (spec.cast_of (tree.part operand.now) types.now (around names.now) made.old)
        result made.new }
{
    let operand = boxed(alloc, operand, names, made);
    cast_known(alloc, operand, types, names)
}

#[cycle(resolving)]
pub(crate) fn signed(
    alloc: Global,
    signs: &[Sign],
    operand: &Boxed<Expr>,
    names: &Names<'_>,
    made: &mut Made,
) -> Result<Typed, ScopeFail>
    ensures { Meets (spec.one_of (operators.signed signs.now) (tree.part operand.now) (around
        names.now) made.old) result made.new }
{
    let operand = boxed(alloc, operand, names, made);
    signed_of(alloc, signs, operand)
}

#[cycle(resolving)]
pub(crate) fn asked(
    alloc: Global,
    is_negated: bool,
    operand: &Boxed<Expr>,
    test: Test,
    names: &Names<'_>,
    made: &mut Made,
) -> Result<Typed, ScopeFail>
    ensures { Meets (spec.one_of (λ x. operators.asked is_negated x test) (tree.part operand.now)
        (around names.now) made.old) result made.new }
{
    let operand = boxed(alloc, operand, names, made);
    asked_of(alloc, is_negated, operand, test)
}

#[cycle(resolving)]
pub(crate) fn negated(
    alloc: Global,
    count: usize,
    operand: &Boxed<Expr>,
    names: &Names<'_>,
    made: &mut Made,
) -> Result<Typed, ScopeFail>
    ensures { Meets (spec.one_of (operators.negated count) (tree.part operand.now) (around
        names.now) made.old) result made.new }
{
    let operand = boxed(alloc, operand, names, made);
    negated_of(alloc, count, operand)
}

// ---- two operands, or three

#[cycle(resolving)]
pub(crate) fn null_if(
    alloc: Global,
    left: &Boxed<Expr>,
    right: &Boxed<Expr>,
    names: &Names<'_>,
    made: &mut Made,
) -> Result<Typed, ScopeFail>
    ensures { Meets (spec.two_of operators.null_if (tree.part left.now) (tree.part right.now)
        (around names.now) made.old) result made.new }
{
    let left = boxed(alloc, left, names, made);
    second(alloc, right, left, Two::NullIf, names, made)
}

#[cycle(resolving)]
pub(crate) fn like(
    alloc: Global,
    is_negated: bool,
    operand: &Boxed<Expr>,
    pattern: &Boxed<Expr>,
    names: &Names<'_>,
    made: &mut Made,
) -> Result<Typed, ScopeFail>
    ensures { Meets (spec.two_of (operators.like is_negated) (tree.part operand.now) (tree.part
        pattern.now) (around names.now) made.old) result made.new }
{
    let operand = boxed(alloc, operand, names, made);
    second(
        alloc,
        pattern,
        operand,
        Two::Like { is_negated },
        names,
        made,
    )
}

#[cycle(resolving)]
pub(crate) fn compared(
    alloc: Global,
    comparison: Comparison,
    left: &Boxed<Expr>,
    right: &Boxed<Expr>,
    names: &Names<'_>,
    made: &mut Made,
) -> Result<Typed, ScopeFail>
    ensures { Meets (spec.two_of (operators.compared comparison) (tree.part left.now) (tree.part
        right.now) (around names.now) made.old) result made.new }
{
    let left = boxed(alloc, left, names, made);
    second(alloc, right, left, Two::Compare(comparison), names, made)
}

#[cycle(resolving)]
pub(crate) fn distinct(
    alloc: Global,
    is_negated: bool,
    left: &Boxed<Expr>,
    right: &Boxed<Expr>,
    names: &Names<'_>,
    made: &mut Made,
) -> Result<Typed, ScopeFail>
    ensures { Meets (spec.two_of (operators.distinct is_negated) (tree.part left.now) (tree.part
        right.now) (around names.now) made.old) result made.new }
{
    let left = boxed(alloc, left, names, made);
    second(
        alloc,
        right,
        left,
        Two::IsDistinct { is_negated },
        names,
        made,
    )
}

#[cycle(resolving)]
pub(crate) fn between(
    alloc: Global,
    is_negated: bool,
    operand: &Boxed<Expr>,
    low: &Boxed<Expr>,
    high: &Boxed<Expr>,
    names: &Names<'_>,
    made: &mut Made,
) -> Result<Typed, ScopeFail>
    ensures { Meets (spec.between_of is_negated (tree.part operand.now) (tree.part low.now)
        (tree.part high.now) (around names.now) made.old) result made.new }
{
    let operand = boxed(alloc, operand, names, made)?;
    let low = boxed(alloc, low, names, made);
    let by = Two::Between {
        is_negated,
        operand,
    };
    second(alloc, high, low, by, names, made)
}

// ---- operators from the left

#[cycle(resolving)]
pub(crate) fn product(
    alloc: Global,
    first: &Boxed<Expr>,
    factors: &[Factor],
    names: &Names<'_>,
    made: &mut Made,
) -> Result<Typed, ScopeFail>
    ensures { Meets (spec.chain_of (tree.part first.now) (map tree.factor_view factors.now) (around
        names.now) made.old) result made.new }
{
    let first = boxed(alloc, first, names, made)?;
    let run = Run::new(alloc, first);
    factors_on(alloc, factors, run, names, made)
}

#[cycle(resolving)]
pub(crate) fn sum(
    alloc: Global,
    first: &Boxed<Expr>,
    terms: &[Term],
    names: &Names<'_>,
    made: &mut Made,
) -> Result<Typed, ScopeFail>
    ensures { Meets (spec.chain_of (tree.part first.now) (map tree.term_view terms.now) (around
        names.now) made.old) result made.new }
{
    let first = boxed(alloc, first, names, made)?;
    let run = Run::new(alloc, first);
    terms_on(alloc, terms, run, names, made)
}

// ---- lists

#[cycle(resolving)]
pub(crate) fn picked(
    alloc: Global,
    pick: Pick,
    list: &[Expr],
    names: &Names<'_>,
    made: &mut Made,
) -> Result<Typed, ScopeFail>
    ensures { Meets (spec.pick_of pick (map tree.part list.now) (around names.now) made.old) result
        made.new }
{
    let none = Gathering::Pick {
        pick,
        all: Listed::new(alloc),
    };
    gathered_on(alloc, list, none, names, made)
}

#[cycle(resolving)]
pub(crate) fn in_list(
    alloc: Global,
    is_negated: bool,
    operand: &Boxed<Expr>,
    list: &[Expr],
    names: &Names<'_>,
    made: &mut Made,
) -> Result<Typed, ScopeFail>
    ensures { Meets (spec.in_list_of is_negated (tree.part operand.now) (map tree.part list.now)
        (around names.now) made.old) result made.new }
{
    let operand = boxed(alloc, operand, names, made);
    let none = Gathering::InList {
        is_negated,
        all: Listed::new(alloc),
    };
    let first = gather(alloc, none, operand)?;
    gathered_on(alloc, list, first, names, made)
}

#[cycle(resolving)]
pub(crate) fn row(
    alloc: Global,
    list: &[Expr],
    names: &Names<'_>,
    made: &mut Made,
) -> Result<Typed, ScopeFail>
    ensures { Meets (spec.row_part (map tree.part list.now) (around names.now) made.old) result
        made.new }
{
    let none = Gathering::Row(Arguments::new(alloc));
    gathered_on(alloc, list, none, names, made)
}

#[cycle(resolving)]
pub(crate) fn concat(
    alloc: Global,
    list: &[Expr],
    names: &Names<'_>,
    made: &mut Made,
) -> Result<Typed, ScopeFail>
    ensures { Meets (spec.concat_of (map tree.part list.now) (around names.now) made.old) result
        made.new }
{
    gathered_on(alloc, list, Gathering::Concat(None), names, made)
}

#[cycle(resolving)]
pub(crate) fn all_of(
    alloc: Global,
    list: &[Expr],
    names: &Names<'_>,
    made: &mut Made,
) -> Result<Typed, ScopeFail>
    ensures { Meets (spec.and_of (map tree.part list.now) (around names.now) made.old) result
        made.new }
{
    let none = Gathering::And(List::new(alloc));
    gathered_on(alloc, list, none, names, made)
}

#[cycle(resolving)]
pub(crate) fn any_of(
    alloc: Global,
    list: &[Expr],
    names: &Names<'_>,
    made: &mut Made,
) -> Result<Typed, ScopeFail>
    ensures { Meets (spec.or_of (map tree.part list.now) (around names.now) made.old) result
        made.new }
{
    let none = Gathering::Or(List::new(alloc));
    gathered_on(alloc, list, none, names, made)
}

// ---- queries inside

#[cycle(resolving)]
pub(crate) fn scalar(
    alloc: Global,
    inner: &Boxed<Query>,
    names: &Names<'_>,
    made: &mut Made,
) -> Result<Typed, ScopeFail>
    ensures { Meets (spec.subquery_of (tree.query_part inner.now) (around names.now) made.old)
        result made.new }
{
    let inner = query(alloc, inner.get(), names, made);
    scalar_of(alloc, inner)
}

#[cycle(resolving)]
pub(crate) fn exists(
    alloc: Global,
    inner: &Boxed<Query>,
    names: &Names<'_>,
    made: &mut Made,
) -> Result<Typed, ScopeFail>
    ensures { Meets (spec.exists_of (tree.query_part inner.now) (around names.now) made.old) result
        made.new }
{
    let inner = query(alloc, inner.get(), names, made);
    exists_of(alloc, inner)
}

#[cycle(resolving)]
pub(crate) fn in_query(
    alloc: Global,
    is_negated: bool,
    operand: &Boxed<Expr>,
    inner: &Boxed<Query>,
    names: &Names<'_>,
    made: &mut Made,
) -> Result<Typed, ScopeFail>
    ensures { Meets (spec.in_query_of is_negated (tree.part operand.now) (tree.query_part
        inner.now) (around names.now) made.old) result made.new }
{
    let operand = boxed(alloc, operand, names, made)?;
    let inner = query(alloc, inner.get(), names, made);
    in_query_of(alloc, is_negated, operand, inner)
}

// ---- CASE

#[cycle(resolving)]
pub(crate) fn case(
    alloc: Global,
    operand: &Option<Boxed<Expr>>,
    arms: &[Arm],
    otherwise: &Option<Boxed<Expr>>,
    names: &Names<'_>,
    made: &mut Made,
) -> Result<Typed, ScopeFail>
    ensures { Meets (spec.case_of (option_map tree.part operand.now) (map tree.arm_view arms.now)
        (option_map tree.part otherwise.now) (around names.now) made.old) result made.new }
{
    let operand = maybe(alloc, operand, names, made)?;
    let ty = operand_type(&operand);
    let done = arms_on(alloc, arms, &ty, names, made)?;
    let otherwise = maybe(alloc, otherwise, names, made);
    cased(alloc, tree_of(operand), done, otherwise)
}
