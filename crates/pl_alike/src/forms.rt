//! The forms of expressions that hold expressions.

ghost use Rattle.std.specs.Prelude.{◌≡◌, true};

use crate::expressions::is_same_expr;
use crate::lists::all_alike;
use crate::parts::{same_arguments, same_arms, same_exprs, same_factors, same_if_any, same_terms};
use crate::queries::is_same_query;
use crate::words::{same_comparison, same_flag, same_name, same_pick, same_test};
use pl_tree::Expr;

#[cycle(alike)]
pub(crate) fn same_call(a: &Expr, b: &Expr) -> bool
    ensures { result ≡ true → a.now ≡ b.now }
{
    match (a, b) {
        (
            Expr::Call { name, arguments },
            Expr::Call {
                name: other,
                arguments: others,
            },
        ) => same_name(name, other) && same_arguments(arguments.as_slice(), others.as_slice()),
        _ => false,
    }
}

// A query in brackets, or EXISTS.
#[cycle(alike)]
pub(crate) fn same_queries(a: &Expr, b: &Expr) -> bool
    ensures { result ≡ true → a.now ≡ b.now }
{
    match (a, b) {
        (Expr::Subquery(a), Expr::Subquery(b)) => is_same_query(a.get(), b.get()),
        (Expr::Exists(a), Expr::Exists(b)) => is_same_query(a.get(), b.get()),
        _ => false,
    }
}

#[cycle(alike)]
pub(crate) fn same_picking(a: &Expr, b: &Expr) -> bool
    ensures { result ≡ true → a.now ≡ b.now }
{
    match (a, b) {
        (
            Expr::Pick { pick, list },
            Expr::Pick {
                pick: other,
                list: others,
            },
        ) => same_pick(*pick, *other) && same_exprs(list.as_slice(), others.as_slice()),
        _ => false,
    }
}

#[cycle(alike)]
pub(crate) fn same_null_if(a: &Expr, b: &Expr) -> bool
    ensures { result ≡ true → a.now ≡ b.now }
{
    match (a, b) {
        (Expr::NullIf(left, right), Expr::NullIf(other_left, other_right)) => {
            is_same_expr(left.get(), other_left.get())
                && is_same_expr(right.get(), other_right.get())
        }
        _ => false,
    }
}

// Those that are a list alone.
#[cycle(alike)]
pub(crate) fn same_lists(a: &Expr, b: &Expr) -> bool
    ensures { result ≡ true → a.now ≡ b.now }
{
    match (a, b) {
        (Expr::Row(a), Expr::Row(b)) => same_exprs(a.as_slice(), b.as_slice()),
        (Expr::Concat(a), Expr::Concat(b)) => same_exprs(a.as_slice(), b.as_slice()),
        (Expr::And(a), Expr::And(b)) => same_exprs(a.as_slice(), b.as_slice()),
        (Expr::Or(a), Expr::Or(b)) => same_exprs(a.as_slice(), b.as_slice()),
        _ => false,
    }
}

#[cycle(alike)]
pub(crate) fn same_case(a: &Expr, b: &Expr) -> bool
    ensures { result ≡ true → a.now ≡ b.now }
{
    match (a, b) {
        (
            Expr::Case {
                operand,
                arms,
                otherwise,
            },
            Expr::Case {
                operand: other_operand,
                arms: others,
                otherwise: other_otherwise,
            },
        ) => {
            same_if_any(operand, other_operand)
                && same_arms(arms.as_slice(), others.as_slice())
                && same_if_any(otherwise, other_otherwise)
        }
        _ => false,
    }
}

#[cycle(alike)]
pub(crate) fn same_cast(a: &Expr, b: &Expr) -> bool
    ensures { result ≡ true → a.now ≡ b.now }
{
    match (a, b) {
        (
            Expr::Cast { operand, types },
            Expr::Cast {
                operand: other,
                types: other_types,
            },
        ) => {
            all_alike(types.as_slice(), other_types.as_slice())
                && is_same_expr(operand.get(), other.get())
        }
        _ => false,
    }
}

#[cycle(alike)]
pub(crate) fn same_signed(a: &Expr, b: &Expr) -> bool
    ensures { result ≡ true → a.now ≡ b.now }
{
    match (a, b) {
        (
            Expr::Signed { signs, operand },
            Expr::Signed {
                signs: other_signs,
                operand: other,
            },
        ) => {
            all_alike(signs.as_slice(), other_signs.as_slice())
                && is_same_expr(operand.get(), other.get())
        }
        _ => false,
    }
}

#[cycle(alike)]
pub(crate) fn same_product(a: &Expr, b: &Expr) -> bool
    ensures { result ≡ true → a.now ≡ b.now }
{
    match (a, b) {
        (
            Expr::Product { first, factors },
            Expr::Product {
                first: other,
                factors: others,
            },
        ) => {
            is_same_expr(first.get(), other.get())
                && same_factors(factors.as_slice(), others.as_slice())
        }
        _ => false,
    }
}

#[cycle(alike)]
pub(crate) fn same_sum(a: &Expr, b: &Expr) -> bool
    ensures { result ≡ true → a.now ≡ b.now }
{
    match (a, b) {
        (
            Expr::Sum { first, terms },
            Expr::Sum {
                first: other,
                terms: others,
            },
        ) => {
            is_same_expr(first.get(), other.get())
                && same_terms(terms.as_slice(), others.as_slice())
        }
        _ => false,
    }
}

#[cycle(alike)]
pub(crate) fn same_between(a: &Expr, b: &Expr) -> bool
    ensures { result ≡ true → a.now ≡ b.now }
{
    match (a, b) {
        (
            Expr::Between {
                is_negated,
                operand,
                low,
                high,
            },
            Expr::Between {
                is_negated: other_negated,
                operand: other,
                low: other_low,
                high: other_high,
            },
        ) => {
            same_flag(*is_negated, *other_negated)
                && is_same_expr(operand.get(), other.get())
                && is_same_expr(low.get(), other_low.get())
                && is_same_expr(high.get(), other_high.get())
        }
        _ => false,
    }
}

#[cycle(alike)]
pub(crate) fn same_in_list(a: &Expr, b: &Expr) -> bool
    ensures { result ≡ true → a.now ≡ b.now }
{
    match (a, b) {
        (
            Expr::InList {
                is_negated,
                operand,
                list,
            },
            Expr::InList {
                is_negated: other_negated,
                operand: other,
                list: others,
            },
        ) => {
            same_flag(*is_negated, *other_negated)
                && is_same_expr(operand.get(), other.get())
                && same_exprs(list.as_slice(), others.as_slice())
        }
        _ => false,
    }
}

#[cycle(alike)]
pub(crate) fn same_in_query(a: &Expr, b: &Expr) -> bool
    ensures { result ≡ true → a.now ≡ b.now }
{
    match (a, b) {
        (
            Expr::InQuery {
                is_negated,
                operand,
                query,
            },
            Expr::InQuery {
                is_negated: other_negated,
                operand: other,
                query: other_query,
            },
        ) => {
            same_flag(*is_negated, *other_negated)
                && is_same_expr(operand.get(), other.get())
                && is_same_query(query.get(), other_query.get())
        }
        _ => false,
    }
}

#[cycle(alike)]
pub(crate) fn same_like(a: &Expr, b: &Expr) -> bool
    ensures { result ≡ true → a.now ≡ b.now }
{
    match (a, b) {
        (
            Expr::Like {
                is_negated,
                operand,
                pattern,
            },
            Expr::Like {
                is_negated: other_negated,
                operand: other,
                pattern: other_pattern,
            },
        ) => {
            same_flag(*is_negated, *other_negated)
                && is_same_expr(operand.get(), other.get())
                && is_same_expr(pattern.get(), other_pattern.get())
        }
        _ => false,
    }
}

#[cycle(alike)]
pub(crate) fn same_comparing(a: &Expr, b: &Expr) -> bool
    ensures { result ≡ true → a.now ≡ b.now }
{
    match (a, b) {
        (
            Expr::Compare {
                comparison,
                left,
                right,
            },
            Expr::Compare {
                comparison: other,
                left: other_left,
                right: other_right,
            },
        ) => {
            same_comparison(*comparison, *other)
                && is_same_expr(left.get(), other_left.get())
                && is_same_expr(right.get(), other_right.get())
        }
        _ => false,
    }
}

#[cycle(alike)]
pub(crate) fn same_is(a: &Expr, b: &Expr) -> bool
    ensures { result ≡ true → a.now ≡ b.now }
{
    match (a, b) {
        (
            Expr::Is {
                is_negated,
                operand,
                test,
            },
            Expr::Is {
                is_negated: other_negated,
                operand: other,
                test: other_test,
            },
        ) => {
            same_flag(*is_negated, *other_negated)
                && same_test(*test, *other_test)
                && is_same_expr(operand.get(), other.get())
        }
        _ => false,
    }
}

#[cycle(alike)]
pub(crate) fn same_distinct(a: &Expr, b: &Expr) -> bool
    ensures { result ≡ true → a.now ≡ b.now }
{
    match (a, b) {
        (
            Expr::IsDistinct {
                is_negated,
                left,
                right,
            },
            Expr::IsDistinct {
                is_negated: other_negated,
                left: other_left,
                right: other_right,
            },
        ) => {
            same_flag(*is_negated, *other_negated)
                && is_same_expr(left.get(), other_left.get())
                && is_same_expr(right.get(), other_right.get())
        }
        _ => false,
    }
}

#[cycle(alike)]
pub(crate) fn same_not(a: &Expr, b: &Expr) -> bool
    ensures { result ≡ true → a.now ≡ b.now }
{
    match (a, b) {
        (
            Expr::Not { count, operand },
            Expr::Not {
                count: other_count,
                operand: other,
            },
        ) => *count == *other_count && is_same_expr(operand.get(), other.get()),
        _ => false,
    }
}
