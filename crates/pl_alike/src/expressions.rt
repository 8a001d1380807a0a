//! Expressions that are the same.

ghost use Rattle.std.specs.Prelude.{◌≡◌, true};

use crate::forms::{
    same_between, same_call, same_case, same_cast, same_comparing, same_distinct, same_in_list,
    same_in_query, same_is, same_like, same_lists, same_not, same_null_if, same_picking,
    same_product, same_queries, same_signed, same_sum,
};
use crate::words::{same_literal, same_name};
use pl_tree::Expr;

/// Whether the expressions are the same.
// Each form has a function of its own, so that none needs room for the others.
#[cycle(alike)]
pub fn is_same_expr(a: &Expr, b: &Expr) -> bool
    ensures { result ≡ true → a.now ≡ b.now }
{
    match a {
        Expr::Literal(_) => same_leaf(a, b),
        Expr::Parameter(_) => same_leaf(a, b),
        Expr::Name(_) => same_leaf(a, b),
        Expr::Qualified { .. } => same_leaf(a, b),
        Expr::Call { .. } => same_call(a, b),
        Expr::CountRows => same_leaf(a, b),
        Expr::Subquery(_) => same_queries(a, b),
        Expr::Exists(_) => same_queries(a, b),
        Expr::Pick { .. } => same_picking(a, b),
        Expr::NullIf(_, _) => same_null_if(a, b),
        Expr::Row(_) => same_lists(a, b),
        Expr::Case { .. } => same_case(a, b),
        Expr::Cast { .. } => same_cast(a, b),
        Expr::Signed { .. } => same_signed(a, b),
        Expr::Product { .. } => same_product(a, b),
        Expr::Sum { .. } => same_sum(a, b),
        Expr::Concat(_) => same_lists(a, b),
        Expr::Between { .. } => same_between(a, b),
        Expr::InList { .. } => same_in_list(a, b),
        Expr::InQuery { .. } => same_in_query(a, b),
        Expr::Like { .. } => same_like(a, b),
        Expr::Compare { .. } => same_comparing(a, b),
        Expr::Is { .. } => same_is(a, b),
        Expr::IsDistinct { .. } => same_distinct(a, b),
        Expr::Not { .. } => same_not(a, b),
        Expr::And(_) => same_lists(a, b),
        Expr::Or(_) => same_lists(a, b),
    }
}

// Those that hold no other expression.
fn same_leaf(a: &Expr, b: &Expr) -> bool
    ensures { result ≡ true → a.now ≡ b.now }
{
    match (a, b) {
        (Expr::Literal(a), Expr::Literal(b)) => same_literal(a, b),
        (Expr::Parameter(a), Expr::Parameter(b)) => *a == *b,
        (Expr::Name(a), Expr::Name(b)) => same_name(a, b),
        (
            Expr::Qualified { qualifier, name },
            Expr::Qualified {
                qualifier: other_qualifier,
                name: other,
            },
        ) => same_name(name, other) && same_name(qualifier, other_qualifier),
        (Expr::CountRows, Expr::CountRows) => true,
        _ => false,
    }
}
