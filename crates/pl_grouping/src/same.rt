//! Trees that are equal: the same node over the same parts.

ghost use Rattle.std.specs.Prelude.{◌≡◌, map, option_map};
ghost use Rattle.pl_grouping.specs.Equality as spec;
ghost use Rattle.pl_resolved.specs.declared.expression.RExpr.TheOpen as layer;

use crate::words::{same_combination, same_kind, same_operator, same_type, same_types, same_value};
use pl_base::{Boxed, Name, Operator, Ty, Value};
use pl_resolved::{Combination, RAggregate, RArm, RCase, RChain, RExpr, RPair, RStep};

/// Whether the trees are equal.
#[cycle(same_trees)]
#[tactic(auto, using(crate::proofs::Equations::equations))]
pub fn same_tree(a: &RExpr, b: &RExpr) -> bool
    ensures { result ≡ spec.same a.now b.now }
{
    match a {
        RExpr::Constant(value) => is_constant(value, b),
        RExpr::Place { row, column } => is_place(*row, *column, b),
        RExpr::Cast { operand, types } => is_cast(operand.get(), types.as_slice(), b),
        RExpr::Unary {
            operator,
            times,
            operand,
        } => is_unary(operand.get(), *operator, *times, b),
        RExpr::Binary { operator, operands } => is_binary(operands.get(), *operator, b),
        RExpr::Chain(chain) => is_chain(chain.get(), b),
        RExpr::And(list) => is_and(list.as_slice(), b),
        RExpr::Or(list) => is_or(list.as_slice(), b),
        RExpr::Case(case) => is_case(case.get(), b),
        RExpr::Coalesce { operands, to } => is_coalesce(operands.as_slice(), to, b),
        RExpr::Combined {
            combination,
            operands,
        } => is_combined(operands.as_slice(), combination, b),
        RExpr::Row { fields, types } => is_row(fields.as_slice(), types.as_slice(), b),
        RExpr::Call { routine, arguments } => is_call(arguments.as_slice(), routine, b),
        RExpr::Scalar(query) => is_scalar(*query, b),
        RExpr::Exists(query) => is_exists(*query, b),
        RExpr::InQuery { operand, query, to } => is_in_query(operand.get(), *query, to, b),
    }
}

fn is_constant(value: &Value, other: &RExpr) -> bool
    ensures { result ≡ spec.expr_step (layer.Constant value.now) other.now }
{
    match other {
        RExpr::Constant(other) => same_value(value, other),
        _ => false,
    }
}

fn is_place(row: usize, column: usize, other: &RExpr) -> bool
    ensures { result ≡ spec.expr_step (layer.Place row column) other.now }
{
    match other {
        RExpr::Place {
            row: other_row,
            column: other_column,
        } => row == *other_row && column == *other_column,
        _ => false,
    }
}

#[cycle(same_trees)]
fn is_cast(operand: &RExpr, types: &[Ty], other: &RExpr) -> bool
    ensures { result ≡ spec.expr_step (layer.Cast (spec.same operand.now) types.now) other.now }
{
    match other {
        RExpr::Cast {
            operand: other,
            types: other_types,
        } => same_types(types, other_types.as_slice()) && same_tree(operand, other.get()),
        _ => false,
    }
}

#[cycle(same_trees)]
fn is_unary(operand: &RExpr, operator: Operator, times: usize, other: &RExpr) -> bool
    ensures { result ≡
        spec.expr_step (layer.Unary operator times (spec.same operand.now)) other.now }
{
    match other {
        RExpr::Unary {
            operator: other_operator,
            times: other_times,
            operand: other,
        } => {
            same_operator(operator, *other_operator)
                && times == *other_times
                && same_tree(operand, other.get())
        }
        _ => false,
    }
}

#[cycle(same_trees)]
fn is_binary(pair: &RPair, operator: Operator, other: &RExpr) -> bool
    ensures { result ≡ spec.expr_step (layer.Binary operator (spec.same_pair pair.now)) other.now }
{
    match other {
        RExpr::Binary {
            operator: other_operator,
            operands: others,
        } => same_operator(operator, *other_operator) && same_pair(pair, others.get()),
        _ => false,
    }
}

#[cycle(same_trees)]
fn is_chain(chain: &RChain, other: &RExpr) -> bool
    ensures { result ≡ spec.expr_step (layer.Chain (spec.same_chain chain.now)) other.now }
{
    match other {
        RExpr::Chain(other) => same_chain(chain, other.get()),
        _ => false,
    }
}

#[cycle(same_trees)]
fn is_and(list: &[RExpr], other: &RExpr) -> bool
    ensures { result ≡ spec.expr_step (layer.And (map spec.same list.now)) other.now }
{
    match other {
        RExpr::And(others) => same_exprs(list, others.as_slice()),
        _ => false,
    }
}

#[cycle(same_trees)]
fn is_or(list: &[RExpr], other: &RExpr) -> bool
    ensures { result ≡ spec.expr_step (layer.Or (map spec.same list.now)) other.now }
{
    match other {
        RExpr::Or(others) => same_exprs(list, others.as_slice()),
        _ => false,
    }
}

#[cycle(same_trees)]
fn is_case(case: &RCase, other: &RExpr) -> bool
    ensures { result ≡ spec.expr_step (layer.Case (spec.same_case case.now)) other.now }
{
    match other {
        RExpr::Case(other) => same_case(case, other.get()),
        _ => false,
    }
}

#[cycle(same_trees)]
fn is_coalesce(operands: &[RExpr], to: &Ty, other: &RExpr) -> bool
    ensures { result ≡
        spec.expr_step (layer.Coalesce (map spec.same operands.now) to.now) other.now }
{
    match other {
        RExpr::Coalesce {
            operands: others,
            to: other_to,
        } => same_type(to, other_to) && same_exprs(operands, others.as_slice()),
        _ => false,
    }
}

#[cycle(same_trees)]
fn is_combined(operands: &[RExpr], combination: &Combination, other: &RExpr) -> bool
    ensures { result ≡
        spec.expr_step (layer.Combined combination.now (map spec.same operands.now)) other.now }
{
    match other {
        RExpr::Combined {
            combination: other_combination,
            operands: others,
        } => {
            same_combination(combination, other_combination)
                && same_exprs(operands, others.as_slice())
        }
        _ => false,
    }
}

#[cycle(same_trees)]
fn is_row(fields: &[RExpr], types: &[Ty], other: &RExpr) -> bool
    ensures { result ≡
        spec.expr_step (layer.Row (map spec.same fields.now) types.now) other.now }
{
    match other {
        RExpr::Row {
            fields: others,
            types: other_types,
        } => same_types(types, other_types.as_slice()) && same_exprs(fields, others.as_slice()),
        _ => false,
    }
}

#[cycle(same_trees)]
fn is_call(arguments: &[RExpr], routine: &Name, other: &RExpr) -> bool
    ensures { result ≡
        spec.expr_step (layer.Call routine.now (map spec.same arguments.now)) other.now }
{
    match other {
        RExpr::Call {
            routine: other_routine,
            arguments: others,
        } => routine == other_routine && same_exprs(arguments, others.as_slice()),
        _ => false,
    }
}

fn is_scalar(query: usize, other: &RExpr) -> bool
    ensures { result ≡ spec.expr_step (layer.Scalar query) other.now }
{
    match other {
        RExpr::Scalar(other) => query == *other,
        _ => false,
    }
}

fn is_exists(query: usize, other: &RExpr) -> bool
    ensures { result ≡ spec.expr_step (layer.Exists query) other.now }
{
    match other {
        RExpr::Exists(other) => query == *other,
        _ => false,
    }
}

#[cycle(same_trees)]
fn is_in_query(operand: &RExpr, query: usize, to: &Ty, other: &RExpr) -> bool
    ensures { result ≡
        spec.expr_step (layer.InQuery (spec.same operand.now) query to.now) other.now }
{
    match other {
        RExpr::InQuery {
            operand: other,
            query: other_query,
            to: other_to,
        } => query == *other_query && same_type(to, other_to) && same_tree(operand, other.get()),
        _ => false,
    }
}

// ---- parts

#[cycle(same_trees)]
fn same_exprs(a: &[RExpr], b: &[RExpr]) -> bool
    ensures { result ≡ spec.all_same (map spec.same a.now) b.now }
{
    let mut rest = b;
    for first in a {
        let Some((other, others)) = rest.split_first() else {
            return false;
        };
        if !same_tree(first, other) {
            return false;
        }
        rest = others;
    }
    rest.is_empty()
}

#[cycle(same_trees)]
fn same_if_any(a: &Option<Boxed<RExpr>>, b: &Option<Boxed<RExpr>>) -> bool
    ensures { result ≡ spec.same_if_any (option_map spec.same a.now) b.now }
{
    match (a, b) {
        (None, None) => true,
        (Some(a), Some(b)) => same_tree(a.get(), b.get()),
        _ => false,
    }
}

#[cycle(same_trees)]
fn same_pair(a: &RPair, b: &RPair) -> bool
    ensures { result ≡ spec.same_pair a.now b.now }
{
    same_tree(&a.first, &b.first) && same_tree(&a.second, &b.second)
}

#[cycle(same_trees)]
fn same_chain(a: &RChain, b: &RChain) -> bool
    ensures { result ≡ spec.same_chain a.now b.now }
{
    same_tree(&a.first, &b.first) && same_steps(a.steps.as_slice(), b.steps.as_slice())
}

#[cycle(same_trees)]
fn same_steps(a: &[RStep], b: &[RStep]) -> bool
    ensures { result ≡ spec.all_same (map spec.same_step a.now) b.now }
{
    let mut rest = b;
    for first in a {
        let Some((other, others)) = rest.split_first() else {
            return false;
        };
        if !same_step(first, other) {
            return false;
        }
        rest = others;
    }
    rest.is_empty()
}

#[cycle(same_trees)]
pub(crate) fn same_step(a: &RStep, b: &RStep) -> bool
    ensures { result ≡ spec.same_step a.now b.now }
{
    same_operator(a.operator, b.operator) && same_tree(&a.operand, &b.operand)
}

#[cycle(same_trees)]
fn same_case(a: &RCase, b: &RCase) -> bool
    ensures { result ≡ spec.same_case a.now b.now }
{
    same_type(&a.to, &b.to)
        && same_if_any(&a.operand, &b.operand)
        && same_arms(a.arms.as_slice(), b.arms.as_slice())
        && same_if_any(&a.otherwise, &b.otherwise)
}

#[cycle(same_trees)]
fn same_arms(a: &[RArm], b: &[RArm]) -> bool
    ensures { result ≡ spec.all_same (map spec.same_arm a.now) b.now }
{
    let mut rest = b;
    for first in a {
        let Some((other, others)) = rest.split_first() else {
            return false;
        };
        if !same_arm(first, other) {
            return false;
        }
        rest = others;
    }
    rest.is_empty()
}

#[cycle(same_trees)]
fn same_arm(a: &RArm, b: &RArm) -> bool
    ensures { result ≡ spec.same_arm a.now b.now }
{
    same_tree(&a.when, &b.when) && same_tree(&a.then, &b.then)
}

/// Whether the aggregates are equal: one kind over equal arguments.
#[tactic(auto, unfolding(crate::specs::Equality::same_aggregate))]
pub fn same_aggregate(a: &RAggregate, b: &RAggregate) -> bool
    ensures { result ≡ spec.same_aggregate a.now b.now }
{
    same_kind(a.aggregate, b.aggregate)
        && same_exprs(a.arguments.as_slice(), b.arguments.as_slice())
}
