//! Lists of expressions, and what stands in lists, that are the same.

ghost use Rattle.std.specs.Prelude.{◌≡◌, true};

use crate::expressions::is_same_expr;
use crate::words::same_arithmetic;
use pl_base::Boxed;
use pl_tree::{Argument, Arm, Expr, Factor, Term};

#[cycle(alike)]
pub(crate) fn same_if_any(a: &Option<Boxed<Expr>>, b: &Option<Boxed<Expr>>) -> bool
    ensures { result ≡ true → a.now ≡ b.now }
{
    match (a, b) {
        (None, None) => true,
        (Some(a), Some(b)) => is_same_expr(a.get(), b.get()),
        _ => false,
    }
}

#[cycle(alike)]
fn same_argument(a: &Argument, b: &Argument) -> bool
    ensures { result ≡ true → a.now ≡ b.now }
{
    match (a, b) {
        (Argument::Value(a), Argument::Value(b)) => is_same_expr(a, b),
        (Argument::FatalErrors(a), Argument::FatalErrors(b)) => is_same_expr(a, b),
        _ => false,
    }
}

#[cycle(alike)]
fn same_arm(a: &Arm, b: &Arm) -> bool
    ensures { result ≡ true → a.now ≡ b.now }
{
    is_same_expr(&a.when, &b.when) && is_same_expr(&a.then, &b.then)
}

#[cycle(alike)]
fn same_factor(a: &Factor, b: &Factor) -> bool
    ensures { result ≡ true → a.now ≡ b.now }
{
    same_arithmetic(a.operator, b.operator) && is_same_expr(&a.operand, &b.operand)
}

#[cycle(alike)]
fn same_term(a: &Term, b: &Term) -> bool
    ensures { result ≡ true → a.now ≡ b.now }
{
    same_arithmetic(a.operator, b.operator) && is_same_expr(&a.operand, &b.operand)
}

// ---- lists, one for one

#[cycle(alike)]
pub(crate) fn same_exprs(a: &[Expr], b: &[Expr]) -> bool
    ensures { result ≡ true → a.now ≡ b.now }
{
    let mut rest = b;
    for first in a {
        let Some((other, others)) = rest.split_first() else {
            return false;
        };
        if !is_same_expr(first, other) {
            return false;
        }
        rest = others;
    }
    rest.is_empty()
}

#[cycle(alike)]
pub(crate) fn same_arguments(a: &[Argument], b: &[Argument]) -> bool
    ensures { result ≡ true → a.now ≡ b.now }
{
    let mut rest = b;
    for first in a {
        let Some((other, others)) = rest.split_first() else {
            return false;
        };
        if !same_argument(first, other) {
            return false;
        }
        rest = others;
    }
    rest.is_empty()
}

#[cycle(alike)]
pub(crate) fn same_arms(a: &[Arm], b: &[Arm]) -> bool
    ensures { result ≡ true → a.now ≡ b.now }
{
    let mut rest = b;
    for first in a {
        let Some((other, others)) = rest.split_first() else {
            return false;
        };
        if !same_arm(first, other) {
            return false;
        }
        rest = others;
    }
    rest.is_empty()
}

#[cycle(alike)]
pub(crate) fn same_factors(a: &[Factor], b: &[Factor]) -> bool
    ensures { result ≡ true → a.now ≡ b.now }
{
    let mut rest = b;
    for first in a {
        let Some((other, others)) = rest.split_first() else {
            return false;
        };
        if !same_factor(first, other) {
            return false;
        }
        rest = others;
    }
    rest.is_empty()
}

#[cycle(alike)]
pub(crate) fn same_terms(a: &[Term], b: &[Term]) -> bool
    ensures { result ≡ true → a.now ≡ b.now }
{
    let mut rest = b;
    for first in a {
        let Some((other, others)) = rest.split_first() else {
            return false;
        };
        if !same_term(first, other) {
            return false;
        }
        rest = others;
    }
    rest.is_empty()
}
