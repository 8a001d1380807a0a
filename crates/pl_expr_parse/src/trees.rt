//! What a rule makes of the parts that it reads.

ghost use Rattle.std.specs.Prelude.{◌≡◌, [], ◌∷◌, IfOk, Some, None};
ghost use Rattle.pl_tree.specs.declared.tree.Expr.TheVariants as expr;
ghost use Rattle.pl_tree.specs.declared.tree.From.TheVariants as source;
ghost use Rattle.pl_tree.specs.declared.tree.Item.TheVariants as item;
ghost use Rattle.pl_expr_parse.specs.declared.parts.Range.TheVariants as bounds;
ghost use Rattle.pl_expr_parse.specs.Follows.{Follows};
ghost use Rattle.pl_expr_parse.specs.Trees as spec;

use crate::parts::{BehindItems, Paging, Question, Range, Suffix};
use pl_base::{Boxed, Comparison, Held, List, Name, Ty};
use pl_grammar::{Fail, joined};
use pl_tree::{
    Argument, Arm, Expr, Factor, From, Item, Join, JoinKind, Key, Literal, Nulls, Query, Sign, Term,
};
use std::alloc::{AllocError, Global};

pub(crate) fn disjunction_of(
    alloc: Global,
    first: Expr,
    more: Result<List<Expr>, Fail>,
) -> Result<Expr, Fail>
    ensures { Follows more (λ more. Some (spec.disjunction_of first more)) result }
{
    let first = Held::new(first);
    let more = more?;
    if more.is_empty() {
        return Ok(first.into_inner());
    }
    Ok(Expr::Or(joined(alloc, first.into_inner(), more)?))
}

pub(crate) fn conjunction_of(
    alloc: Global,
    first: Expr,
    more: Result<List<Expr>, Fail>,
) -> Result<Expr, Fail>
    ensures { Follows more (λ more. Some (spec.conjunction_of first more)) result }
{
    let first = Held::new(first);
    let more = more?;
    if more.is_empty() {
        return Ok(first.into_inner());
    }
    Ok(Expr::And(joined(alloc, first.into_inner(), more)?))
}

pub(crate) fn negation_of(
    alloc: Global,
    count: usize,
    operand: Result<Expr, Fail>,
) -> Result<Expr, Fail>
    ensures { Follows operand (λ x. Some (spec.negation_of count x)) result }
{
    let operand = operand?;
    if count == 0 {
        return Ok(operand);
    }
    Ok(Expr::Not {
        count,
        operand: Boxed::new(alloc, operand)?,
    })
}

pub(crate) fn test_of(
    alloc: Global,
    operand: Expr,
    is_negated: bool,
    question: Result<Question, Fail>,
) -> Result<Expr, Fail>
    ensures { Follows question (λ q. Some (spec.asked operand is_negated q)) result }
{
    let operand = Held::new(operand);
    let question = Held::new(question?);
    let operand = Boxed::new(alloc, operand.into_inner())?;
    match question.into_inner() {
        Question::Is(test) => Ok(Expr::Is {
            is_negated,
            operand,
            test,
        }),
        Question::DistinctFrom(right) => {
            let right = Boxed::new(alloc, right)?;
            Ok(Expr::IsDistinct {
                is_negated,
                left: operand,
                right,
            })
        }
    }
}

pub(crate) fn comparison_of(
    alloc: Global,
    left: Expr,
    comparison: Comparison,
    right: Result<Expr, Fail>,
) -> Result<Expr, Fail>
    ensures { Follows right (λ y. Some (spec.comparison_of left (Some (comparison, y)))) result }
{
    let left = Held::new(left);
    let right = Boxed::new(alloc, right?)?;
    let left = Boxed::new(alloc, left.into_inner())?;
    Ok(Expr::Compare {
        comparison,
        left,
        right,
    })
}

/// What BETWEEN asks.
pub(crate) fn bounds_of(low: Expr, high: Result<Expr, Fail>) -> Result<Option<Range>, Fail>
    ensures { Follows high (λ high. Some (Some (bounds.Between low high))) result }
{
    let low = Held::new(low);
    let high = high?;
    Ok(Some(Range::Between(low.into_inner(), high)))
}

fn between_of(
    alloc: Global,
    operand: Expr,
    is_negated: bool,
    low: Expr,
    high: Expr,
) -> Result<Expr, AllocError>
    ensures { IfOk result (λ x. x ≡ spec.between_of operand is_negated low high) }
{
    let low = Held::new(low);
    let high = Held::new(high);
    let operand = Boxed::new(alloc, operand)?;
    let low = Boxed::new(alloc, low.into_inner())?;
    let high = Boxed::new(alloc, high.into_inner())?;
    Ok(Expr::Between {
        is_negated,
        operand,
        low,
        high,
    })
}

/// The operand in its range. Syntax where NOT stands without one.
pub(crate) fn range_of(
    alloc: Global,
    operand: Expr,
    is_negated: bool,
    range: Result<Option<Range>, Fail>,
) -> Result<Expr, Fail>
    ensures { Follows range (λ r. spec.range_of operand is_negated r) result }
{
    let operand = Held::new(operand);
    match range? {
        None => {
            if is_negated {
                return Err(Fail::Syntax);
            }
            Ok(operand.into_inner())
        }
        Some(Range::Between(low, high)) => Ok(between_of(
            alloc,
            operand.into_inner(),
            is_negated,
            low,
            high,
        )?),
        Some(Range::Like(pattern)) => {
            let pattern = Boxed::new(alloc, pattern)?;
            let operand = Boxed::new(alloc, operand.into_inner())?;
            Ok(Expr::Like {
                is_negated,
                operand,
                pattern,
            })
        }
        Some(Range::InList(list)) => {
            let operand = Boxed::new(alloc, operand.into_inner())?;
            Ok(Expr::InList {
                is_negated,
                operand,
                list,
            })
        }
        Some(Range::InQuery(query)) => {
            let query = Boxed::new(alloc, query)?;
            let operand = Boxed::new(alloc, operand.into_inner())?;
            Ok(Expr::InQuery {
                is_negated,
                operand,
                query,
            })
        }
    }
}

pub(crate) fn concatenation_of(
    alloc: Global,
    first: Expr,
    more: Result<List<Expr>, Fail>,
) -> Result<Expr, Fail>
    ensures { Follows more (λ more. Some (spec.concatenation_of first more)) result }
{
    let first = Held::new(first);
    let more = more?;
    if more.is_empty() {
        return Ok(first.into_inner());
    }
    Ok(Expr::Concat(joined(alloc, first.into_inner(), more)?))
}

pub(crate) fn sum_of(
    alloc: Global,
    first: Expr,
    terms: Result<List<Term>, Fail>,
) -> Result<Expr, Fail>
    ensures { Follows terms (λ terms. Some (spec.sum_of first terms)) result }
{
    let first = Held::new(first);
    let terms = terms?;
    if terms.is_empty() {
        return Ok(first.into_inner());
    }
    let first = Boxed::new(alloc, first.into_inner())?;
    Ok(Expr::Sum { first, terms })
}

pub(crate) fn product_of(
    alloc: Global,
    first: Expr,
    factors: Result<List<Factor>, Fail>,
) -> Result<Expr, Fail>
    ensures { Follows factors (λ factors. Some (spec.product_of first factors)) result }
{
    let first = Held::new(first);
    let factors = factors?;
    if factors.is_empty() {
        return Ok(first.into_inner());
    }
    let first = Boxed::new(alloc, first.into_inner())?;
    Ok(Expr::Product { first, factors })
}

fn with_signs(alloc: Global, signs: List<Sign>, operand: Expr) -> Result<Expr, AllocError>
    ensures { IfOk result (λ x. x ≡ spec.with_signs signs operand) }
{
    if signs.is_empty() {
        return Ok(operand);
    }
    Ok(Expr::Signed {
        signs,
        operand: Boxed::new(alloc, operand)?,
    })
}

// Takes the last sign away, if it is a minus.
fn pop_minus(signs: &mut List<Sign>) -> bool
    ensures seen { result ≡ spec.last_is_minus signs.old }
    ensures rest { signs.new ≡ spec.without_minus signs.old }
{
    match signs.as_slice().last() {
        Some(Sign::Minus) => {
            signs.pop();
            true
        }
        _ => false,
    }
}

fn signed_by(alloc: Global, mut signs: List<Sign>, operand: Expr) -> Result<Expr, AllocError>
    ensures { IfOk result (λ x. x ≡ spec.signed_of signs operand) }
{
    match operand {
        Expr::Literal(
            Literal::Number {
                is_negative: false,
                size,
            },
        ) => {
            let is_negative = pop_minus(&mut signs);
            with_signs(
                alloc,
                signs,
                Expr::Literal(Literal::Number { is_negative, size }),
            )
        }
        operand => with_signs(alloc, signs, operand),
    }
}

/// The operand behind its signs. A minus before a number makes one literal of the two.
pub(crate) fn signed_of(
    alloc: Global,
    signs: List<Sign>,
    operand: Result<Expr, Fail>,
) -> Result<Expr, Fail>
    ensures { Follows operand (λ x. Some (spec.signed_of signs x)) result }
{
    let operand = operand?;
    Ok(signed_by(alloc, signs, operand)?)
}

pub(crate) fn conversion_of(
    alloc: Global,
    operand: Expr,
    types: Result<List<Ty>, Fail>,
) -> Result<Expr, Fail>
    ensures { Follows types (λ types. Some (spec.conversion_of operand types)) result }
{
    let operand = Held::new(operand);
    let types = types?;
    if types.is_empty() {
        return Ok(operand.into_inner());
    }
    let operand = Boxed::new(alloc, operand.into_inner())?;
    Ok(Expr::Cast { operand, types })
}

/// CAST, which names one type.
pub(crate) fn cast_of(alloc: Global, operand: Expr, ty: Result<Ty, Fail>) -> Result<Expr, Fail>
    ensures { Follows ty (λ ty. Some (expr.Cast operand (ty ∷ []))) result }
{
    let operand = Held::new(operand);
    let ty = ty?;
    let operand = Boxed::new(alloc, operand.into_inner())?;
    let mut types = List::new(alloc);
    types.push(ty)?;
    Ok(Expr::Cast { operand, types })
}

pub(crate) fn null_if_of(
    alloc: Global,
    first: Expr,
    second: Result<Expr, Fail>,
) -> Result<Expr, Fail>
    ensures { Follows second (λ y. Some (spec.null_if_of first y)) result }
{
    let first = Held::new(first);
    let second = Boxed::new(alloc, second?)?;
    let first = Boxed::new(alloc, first.into_inner())?;
    Ok(Expr::NullIf(first, second))
}

/// An arm of a CASE.
pub(crate) fn arm_of(when: Expr, then: Result<Expr, Fail>) -> Result<Arm, Fail>
    ensures { Follows «then» (λ x. Some (spec.arm_of when x)) result }
{
    let when = Held::new(when);
    let then = then?;
    Ok(Arm {
        when: when.into_inner(),
        then,
    })
}

/// CASE with no operand.
pub(crate) fn searched_of(
    arms: Result<(List<Arm>, Option<Boxed<Expr>>), Fail>,
) -> Result<Expr, Fail>
    ensures { Follows arms (λ p. Some (expr.Case None p.0 p.1)) result }
{
    let (arms, otherwise) = arms?;
    Ok(Expr::Case {
        operand: None,
        arms,
        otherwise,
    })
}

/// CASE with an operand.
pub(crate) fn case_of(
    alloc: Global,
    operand: Expr,
    arms: Result<(List<Arm>, Option<Boxed<Expr>>), Fail>,
) -> Result<Expr, Fail>
    ensures { Follows arms (λ p. Some (expr.Case (Some operand) p.0 p.1)) result }
{
    let operand = Held::new(operand);
    let (arms, otherwise) = arms?;
    let operand = Boxed::new(alloc, operand.into_inner())?;
    Ok(Expr::Case {
        operand: Some(operand),
        arms,
        otherwise,
    })
}

/// The one value of a query.
pub(crate) fn query_value_of(alloc: Global, query: Result<Query, Fail>) -> Result<Expr, Fail>
    ensures { Follows query (λ q. Some (expr.Subquery q)) result }
{
    Ok(Expr::Subquery(Boxed::new(alloc, query?)?))
}

pub(crate) fn exists_of(alloc: Global, query: Result<Query, Fail>) -> Result<Expr, Fail>
    ensures { Follows query (λ q. Some (expr.Exists q)) result }
{
    Ok(Expr::Exists(Boxed::new(alloc, query?)?))
}

fn is(name: Name, word: &str) -> bool
    ensures { result ≡ spec.same_text name word.now }
{
    name.as_bytes() == word.as_bytes()
}

/// Whether a call of this name may have these arguments: one that is named stands last, and only where the
/// name is that of the checker.
pub fn may_have(name: Name, arguments: &[Argument]) -> bool
    ensures { result ≡ spec.well_called (spec.checks name) arguments.now }
{
    well_called(is(name, "plpgsql_check_function"), arguments)
}

// The type that the server has by this name: a row type where it is no other.
fn catalogued(name: Name) -> Ty
    ensures { result ≡ spec.catalogued name }
{
    if is(name, "int4") {
        return Ty::Int;
    }
    if is(name, "int8") {
        return Ty::Big;
    }
    if is(name, "text") {
        return Ty::Text;
    }
    if is(name, "bool") {
        return Ty::Bool;
    }
    if is(name, "record") {
        return Ty::Rec;
    }
    if is(name, "void") {
        return Ty::Void;
    }
    if is(name, "trigger") {
        return Ty::Trigger;
    }
    Ty::Row(name)
}

/// The type of this name, which stands in quotes or not.
pub fn type_of(in_quotes: bool, name: Name) -> Ty
    ensures { result ≡ spec.type_of in_quotes name }
{
    if in_quotes {
        return catalogued(name);
    }
    if is(name, "integer") || is(name, "int") {
        return Ty::Int;
    }
    if is(name, "bigint") {
        return Ty::Big;
    }
    if is(name, "boolean") {
        return Ty::Bool;
    }
    catalogued(name)
}

// Whether all but the last are values, and the last is one too unless it may be named.
fn well_called(may_name: bool, arguments: &[Argument]) -> bool
    ensures { result ≡ spec.well_called may_name arguments.now }
{
    for (at, argument) in arguments.iter().enumerate() {
        if !is_value(argument) {
            let behind = arguments.len() - (at + 1);
            return may_name && behind == 0;
        }
    }
    true
}

fn is_value(argument: &Argument) -> bool
    ensures { result ≡ spec.is_value argument.now }
{
    matches!(argument, Argument::Value(_))
}

/// The tree of a name and what stands behind it. Syntax where `(*)` stands behind another name than
/// `count`, and where an argument is named that may not be.
pub(crate) fn named_of(name: Name, suffix: Result<Suffix, Fail>) -> Result<Expr, Fail>
    ensures { Follows suffix (λ s. spec.named_of name s) result }
{
    match suffix? {
        Suffix::Nothing => Ok(Expr::Name(name)),
        Suffix::Column(column) => Ok(Expr::Qualified {
            qualifier: name,
            name: column,
        }),
        Suffix::AllRows => {
            if !is(name, "count") {
                return Err(Fail::Syntax);
            }
            Ok(Expr::CountRows)
        }
        Suffix::Call(arguments) => {
            if !well_called(is(name, "plpgsql_check_function"), arguments.as_slice()) {
                return Err(Fail::Syntax);
            }
            Ok(Expr::Call { name, arguments })
        }
    }
}

/// A table in FROM, or a function where there are arguments. Syntax where one is named that may not be.
pub(crate) fn source_of(
    name: Name,
    arguments: Option<List<Argument>>,
    alias: Result<Option<Name>, Fail>,
) -> Result<From, Fail>
    ensures { Follows alias (λ alias. spec.source_of name arguments alias) result }
{
    let alias = alias?;
    match arguments {
        None => Ok(From::Table { name, alias }),
        Some(arguments) => {
            if !well_called(is(name, "plpgsql_check_function"), arguments.as_slice()) {
                return Err(Fail::Syntax);
            }
            Ok(From::Function {
                name,
                arguments,
                alias,
            })
        }
    }
}

/// A query in FROM with its alias.
pub(crate) fn subquery_of(
    alloc: Global,
    query: Query,
    alias: Result<Option<Name>, Fail>,
) -> Result<From, Fail>
    ensures { Follows alias (λ alias. Some (source.Subquery query alias)) result }
{
    let query = Held::new(query);
    let alias = alias?;
    let query = Boxed::new(alloc, query.into_inner())?;
    Ok(From::Subquery { query, alias })
}

pub(crate) fn joined_of(
    alloc: Global,
    first: From,
    joins: Result<List<Join>, Fail>,
) -> Result<From, Fail>
    ensures { Follows joins (λ joins. Some (spec.joined_of first joins)) result }
{
    let first = Held::new(first);
    let joins = joins?;
    if joins.is_empty() {
        return Ok(first.into_inner());
    }
    let first = Boxed::new(alloc, first.into_inner())?;
    Ok(From::Joined { first, joins })
}

/// What is joined, and on which condition.
pub(crate) fn joined_on_of(
    alloc: Global,
    with: From,
    condition: Result<Expr, Fail>,
) -> Result<(From, Boxed<Expr>), Fail>
    ensures { Follows condition (λ x. Some (with, x)) result }
{
    let with = Held::new(with);
    let condition = Boxed::new(alloc, condition?)?;
    Ok((with.into_inner(), condition))
}

/// A join whose condition is there.
pub(crate) fn join_of(
    kind: JoinKind,
    joined: Result<(From, Boxed<Expr>), Fail>,
) -> Result<Join, Fail>
    ensures { Follows joined (λ p. Some (spec.join_of kind p.0 (Some p.1))) result }
{
    let (with, condition) = joined?;
    Ok(Join {
        kind,
        with,
        condition: Some(condition),
    })
}

pub(crate) fn key_of(
    value: Expr,
    is_descending: bool,
    nulls: Result<Option<Nulls>, Fail>,
) -> Result<Key, Fail>
    ensures { Follows nulls (λ n. Some (spec.key_of value is_descending n)) result }
{
    let value = Held::new(value);
    let nulls = nulls?;
    Ok(Key {
        value: value.into_inner(),
        is_descending,
        nulls,
    })
}

/// What a query selects, by a value.
pub(crate) fn item_of(value: Expr, label: Result<Option<Name>, Fail>) -> Result<Item, Fail>
    ensures { Follows label (λ l. Some (item.Value value l)) result }
{
    let value = Held::new(value);
    let label = label?;
    Ok(Item::Value {
        value: value.into_inner(),
        label,
    })
}

/// LIMIT that stands behind OFFSET.
pub(crate) fn limited(
    offset: Option<Boxed<Expr>>,
    limit: Result<Option<Boxed<Expr>>, Fail>,
) -> Result<Paging, Fail>
    ensures { Follows limit (λ limit. Some (limit, offset)) result }
{
    let limit = limit?;
    Ok((limit, offset))
}

pub(crate) fn query_of(
    selected: (bool, List<Item>),
    rest: Result<BehindItems, Fail>,
) -> Result<Query, Fail>
    ensures { Follows rest
        (λ r. Some (spec.query_of selected.0 selected.1 r.0 r.1.0 r.1.1.0 r.1.1.1.0 r.1.1.1.1.0
        r.1.1.1.1.1.0 r.1.1.1.1.1.1)) result }
{
    let (is_distinct, items) = selected;
    let (from, (condition, (groups, (having, (order, (limit, offset)))))) = rest?;
    Ok(Query {
        is_distinct,
        items,
        from,
        condition,
        groups,
        having,
        order,
        limit,
        offset,
    })
}
