//! Operators on one operand, on two and on three: PostgreSQL manual, "Comparison Functions and
//! Operators", "Logical Operators", "Pattern Matching".

ghost use Rattle.std.specs.Prelude.{◌≡◌, IfOk, [], ◌∷◌};
ghost use Rattle.pl_typing.specs.Resolved.{Gives};
ghost use Rattle.pl_typing.specs.Operators as spec;

use crate::chain::taken;
use crate::headings::null_if_heading;
use crate::typed::settled;
use crate::{ScopeFail, Typed, as_text_type, coerced, headed, truth, truth_of, with_type};
use pl_base::{Boxed, Comparison, List, Operator, State, Test, Ty};
use pl_calc::{type_of_nullif, type_of_op};
use pl_resolved::{Combination, RExpr, RPair};
use pl_tree::Sign;
use std::alloc::{AllocError, Global};

/// An operator that looks at two operands: a comparison, LIKE, IS DISTINCT FROM. 42883 where it
/// takes no such operands.
#[tactic(auto, unfolding(crate::specs::Operators::paired))]
pub fn paired(
    alloc: Global,
    operator: Operator,
    left: Typed,
    right: Typed,
) -> Result<Typed, ScopeFail>
    ensures { Gives result (spec.paired operator left right) }
{
    match type_of_op(operator, left.ty, right.ty) {
        Ok(ty) => {
            let pair = pair(alloc, operator, left, right)?;
            let tree = RExpr::Binary {
                operator,
                operands: pair,
            };
            Ok(with_type(alloc, tree, ty)?)
        }
        Err(state) => Err(ScopeFail::State(state)),
    }
}

fn pair(
    alloc: Global,
    operator: Operator,
    left: Typed,
    right: Typed,
) -> Result<Boxed<RPair>, AllocError>
    ensures { IfOk result (λ made. made ≡ spec.pair operator left right) }
{
    let left_type = taken(operator, &left.ty, &right.ty);
    let right_type = taken(operator, &right.ty, &left.ty);
    let first = coerced(alloc, left, left_type)?;
    let second = coerced(alloc, right, right_type)?;
    let pair = RPair {
        first: first.into_inner(),
        second: second.into_inner(),
    };
    Ok(Boxed::new(alloc, pair)?)
}

/// A comparison. 42883 where the operands can't be compared.
#[tactic(auto, unfolding(crate::specs::Operators::compared))]
pub fn compared(
    alloc: Global,
    comparison: Comparison,
    left: Typed,
    right: Typed,
) -> Result<Typed, ScopeFail>
    ensures { Gives result (spec.compared comparison left right) }
{
    paired(alloc, Operator::Compare(comparison), left, right)
}

/// IS DISTINCT FROM, or IS NOT DISTINCT FROM. 42883 where the operands can't be compared.
#[tactic(auto, unfolding(crate::specs::Operators::distinct))]
pub fn distinct(
    alloc: Global,
    is_negated: bool,
    left: Typed,
    right: Typed,
) -> Result<Typed, ScopeFail>
    ensures { Gives result (spec.distinct is_negated left right) }
{
    paired(alloc, distinct_operator(is_negated), left, right)
}

fn distinct_operator(is_negated: bool) -> Operator
    ensures { result ≡ spec.distinct_operator is_negated }
{
    if is_negated {
        Operator::NotDistinct
    } else {
        Operator::Distinct
    }
}

/// LIKE, or NOT LIKE. 42883 where an operand is no text.
#[tactic(auto, unfolding(crate::specs::Operators::like))]
pub fn like(
    alloc: Global,
    is_negated: bool,
    operand: Typed,
    pattern: Typed,
) -> Result<Typed, ScopeFail>
    ensures { Gives result (spec.like is_negated operand pattern) }
{
    let is_like = paired(alloc, Operator::Like, operand, pattern)?;
    Ok(turned(alloc, is_negated, is_like)?)
}

/// What is written with NOT, as NOT IN, is the opposite of what is written without.
pub(crate) fn turned(alloc: Global, is_negated: bool, plain: Typed) -> Result<Typed, AllocError>
    ensures { IfOk result (λ made. made ≡ spec.turned is_negated plain) }
{
    if is_negated {
        opposite(alloc, 1, plain.tree)
    } else {
        Ok(plain)
    }
}

fn opposite(alloc: Global, times: usize, operand: Boxed<RExpr>) -> Result<Typed, AllocError>
    ensures { IfOk result (λ made. made ≡ spec.opposite times operand) }
{
    let tree = RExpr::Unary {
        operator: Operator::Not,
        times,
        operand,
    };
    truth_of(alloc, tree)
}

/// NOT, so many times. 42804 where the operand is no condition.
#[tactic(auto, unfolding(crate::specs::Operators::negated))]
pub fn negated(alloc: Global, times: usize, operand: Typed) -> Result<Typed, ScopeFail>
    ensures { Gives result (spec.negated times operand) }
{
    let operand = truth(alloc, operand)?;
    Ok(opposite(alloc, times, operand)?)
}

/// What IS asks, or IS NOT. 42804 where IS TRUE, IS FALSE and IS UNKNOWN ask of what is no
/// condition.
#[tactic(auto, unfolding(crate::specs::Operators::asked))]
pub fn asked(
    alloc: Global,
    is_negated: bool,
    operand: Typed,
    test: Test,
) -> Result<Typed, ScopeFail>
    ensures { Gives result (spec.asked is_negated operand test) }
{
    let operand = asked_of(alloc, operand, test)?;
    let tree = RExpr::Unary {
        operator: asking(is_negated, test),
        times: 1,
        operand,
    };
    Ok(truth_of(alloc, tree)?)
}

fn asked_of(alloc: Global, operand: Typed, test: Test) -> Result<Boxed<RExpr>, ScopeFail>
    ensures { Gives result (spec.asked_of operand test) }
{
    match test {
        Test::Null => Ok(operand.tree),
        Test::True | Test::False | Test::Unknown => truth(alloc, operand),
    }
}

fn asking(is_negated: bool, test: Test) -> Operator
    ensures { result ≡ spec.asking is_negated test }
{
    if is_negated {
        Operator::IsNot(test)
    } else {
        Operator::Is(test)
    }
}

/// Signs before a number, of which the minuses count. 42883 where it is no number.
#[tactic(auto, unfolding(crate::specs::Operators::signed))]
pub fn signed(alloc: Global, signs: &[Sign], operand: Typed) -> Result<Typed, ScopeFail>
    ensures { Gives result (spec.signed signs.now operand) }
{
    match type_of_op(Operator::Plus, operand.ty, operand.ty) {
        Ok(ty) => {
            let tree = with_signs(minuses(signs), operand.tree);
            Ok(with_type(alloc, tree, ty)?)
        }
        Err(state) => Err(ScopeFail::State(state)),
    }
}

fn with_signs(minuses: usize, operand: Boxed<RExpr>) -> RExpr
    ensures { result ≡ spec.with_signs minuses operand }
{
    if minuses == 0 {
        RExpr::Unary {
            operator: Operator::Plus,
            times: 1,
            operand,
        }
    } else {
        RExpr::Unary {
            operator: Operator::Minus,
            times: minuses,
            operand,
        }
    }
}

fn minuses(signs: &[Sign]) -> usize
    ensures { result ≡ spec.minuses signs.now }
{
    let mut count = 0;
    let mut rest = signs;
    while let [sign, more @ ..] = rest {
        match sign {
            Sign::Plus => {}
            Sign::Minus => count += 1,
        }
        rest = more;
    }
    count
}

/// BETWEEN, or NOT BETWEEN. 42883 where the operand can't be compared with both bounds.
#[tactic(auto, unfolding(crate::specs::Operators::between))]
pub fn between(
    alloc: Global,
    is_negated: bool,
    operand: Typed,
    low: Typed,
    high: Typed,
) -> Result<Typed, ScopeFail>
    ensures { Gives result (spec.between is_negated operand low high) }
{
    let ty = between_type(&operand.ty, &low.ty, &high.ty);
    match lies_at(alloc, &ty, operand, low, high) {
        Ok(plain) => Ok(turned(alloc, is_negated, plain)?),
        Err(fail) => Err(fail),
    }
}

// BETWEEN, where the operand is of this type.
#[tactic(auto, unfolding(crate::specs::Operators::lies_at))]
fn lies_at(
    alloc: Global,
    ty: &Ty,
    operand: Typed,
    low: Typed,
    high: Typed,
) -> Result<Typed, ScopeFail>
    ensures { Gives result (spec.lies_at ty.now operand low high) }
{
    match bounds(ty, &low.ty, &high.ty) {
        Ok(_) => Ok(lies_between(alloc, *ty, operand, low, high)?),
        Err(state) => Err(ScopeFail::State(state)),
    }
}

// The type of an operand between two bounds; an unknown one takes the first known type of theirs.
fn between_type(ty: &Ty, low: &Ty, high: &Ty) -> Ty
    ensures { result ≡ spec.between_type ty.now low.now high.now }
{
    match (ty, low) {
        (Ty::Unknown, Ty::Unknown) => as_text_type(high),
        (Ty::Unknown, _) => *low,
        _ => *ty,
    }
}

fn bounds(ty: &Ty, low: &Ty, high: &Ty) -> Result<Ty, State>
    ensures { result ≡ spec.bounds ty.now low.now high.now }
{
    match type_of_op(Operator::Compare(Comparison::LessOrEqual), *low, *ty) {
        Ok(_) => type_of_op(Operator::Compare(Comparison::LessOrEqual), *ty, *high),
        Err(state) => Err(state),
    }
}

fn lies_between(
    alloc: Global,
    ty: Ty,
    operand: Typed,
    low: Typed,
    high: Typed,
) -> Result<Typed, AllocError>
    ensures { IfOk result (λ made. made ≡ spec.lies_between ty operand low high) }
{
    let low_type = settled(&low.ty, &ty);
    let high_type = settled(&high.ty, &ty);
    let operand = coerced(alloc, operand, ty)?;
    let low = coerced(alloc, low, low_type)?;
    let high = coerced(alloc, high, high_type)?;
    let mut operands = two(alloc, operand, low)?;
    operands.push(high.into_inner())?;
    let tree = RExpr::Combined {
        combination: Combination::Between,
        operands,
    };
    truth_of(alloc, tree)
}

// Two operands.
fn two(alloc: Global, first: Boxed<RExpr>, second: Boxed<RExpr>) -> Result<List<RExpr>, AllocError>
    ensures { IfOk result (λ list. list ≡ first ∷ second ∷ []) }
{
    let mut list = List::new(alloc);
    list.push(first.into_inner())?;
    list.push(second.into_inner())?;
    Ok(list)
}

/// NULLIF, of its first operand's type as `=` takes it. 42883 where the operands can't be compared.
#[tactic(auto, unfolding(crate::specs::Operators::null_if))]
pub fn null_if(alloc: Global, first: Typed, second: Typed) -> Result<Typed, ScopeFail>
    ensures { Gives result (spec.null_if first second) }
{
    match type_of_nullif(&first.ty, &second.ty) {
        Ok(ty) => Ok(null_where_equal(alloc, ty, first, second)?),
        Err(state) => Err(ScopeFail::State(state)),
    }
}

fn null_where_equal(alloc: Global, ty: Ty, first: Typed, second: Typed) -> Result<Typed, AllocError>
    ensures { IfOk result (λ made. made ≡ spec.null_where_equal ty first second) }
{
    let second_type = settled(&second.ty, &first.ty);
    let first = coerced(alloc, first, ty)?;
    let second = coerced(alloc, second, second_type)?;
    let tree = RExpr::Combined {
        combination: Combination::NullIf,
        operands: two(alloc, first, second)?,
    };
    headed(alloc, tree, ty, null_if_heading())
}
